//! The wait of a thread that finds nothing to do: `Backoff` of the crate `idle`.
pub(crate) use idle::Backoff;
