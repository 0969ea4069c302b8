//! Who is told what a crash may leave.
use crate::point::CrashPlace;
use crate::promise::Promise;
use crate::stop::Stop;
use crate::told::Told;
use files::FileList;
use std::thread::Threads;

/// Takes files that a crash may leave, with what was promised before it.
pub trait Taker {
    ghost use denote.Param.Send.{IsSync};

    fn take(
        &mut self,
        files: &FileList,
        promise: &Promise,
        place: CrashPlace,
        told: Told<'_>,
    ) -> Result<(), Stop>;

    /// Is told that so many more crashes leave the same.
    fn again(&mut self, times: u64);

    /// Works on what it took, if that is enough by now. Threads may share the work.
    fn settle<R: Threads + Sync>(&mut self, rt: &R) -> Result<(), Stop>
        requires { IsSync R.row };
}
