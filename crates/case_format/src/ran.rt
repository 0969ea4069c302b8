//! `Ran`: what a run of the program wrote, and its exit status.

/// What a run of the program wrote, and its exit status.
pub struct Ran {
    pub out: Vec<u8>,
    pub err: Vec<u8>,
    pub status: u8,
}

impl Drop for Ran {
    fn drop(self) {
        let Ran {
            out: _out,
            err: _err,
            status: _,
        } = self;
    }
}
