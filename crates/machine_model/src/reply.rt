//! Replies to calls.
ghost use Rattle.std.specs.Prelude.{◌≡◌, [], None, Some, IfOk, is_some, option_map};

use crate::image::Image;
use byte_list::Bytes;
use std::alloc::{AllocError, Global};
use std::marker::Model;

/// A number, and bytes for a place.
struct Stored {
    a0: u32,
    at: u32,
    bytes: Bytes,
}

impl Drop for Stored {
    fn drop(self) {
        let Stored {
            a0: _,
            at: _,
            bytes: _bytes,
        } = self;
    }
}

/// How a reply stands in memory: most are of numbers alone.
#[derive(Drop)]
enum Held {
    Plain { a0: u32, at: u32 },
    Storing(Box<Stored>),
    Entering(Box<Image>),
}

/// The reply to a call: a number for a0, and bytes for the memory from the address `at` on. The kernel sets `at` to 0 where there
/// are no bytes.
///
/// The reply of `exec` has an image instead, in whose first state the process goes on. Its `a0` and `at` are 0, and it has no
/// bytes.
pub struct Reply {
    held: Held,
}

impl Drop for Reply {
    fn drop(self) {
        let Reply { held: _held } = self;
    }
}

impl Model for Reply {
    ghost use Rattle.machine_model.specs.CallReplies.{CallReply, reply_code};

    ghost Value = { CallReply };

    ghost coded = { reply_code };

    ghost use Rattle.machine_model.specs.HeldReplies.{reply_of};

    ghost view = { λ r. reply_of r.held };
}

impl Reply {
    /// A number alone. Takes no memory.
    pub fn number(a0: u32) -> Reply
        ensures { result ≡ record { a0 = a0; at = 0; bytes = []; image = None } }
    {
        Reply::plain(a0, 0)
    }

    /// A number, with bytes for the memory from the address `at` on. Takes no memory where there are none.
    pub fn with_bytes(alloc: Global, a0: u32, at: u32, bytes: Bytes) -> Result<Reply, AllocError>
        ensures { IfOk result (λ r. r ≡ record { a0 = a0; at = at; bytes = bytes; image = None }) }
    {
        if bytes.as_slice().is_empty() {
            return Ok(Reply::plain(a0, at));
        }
        let stored = Box::new(alloc, Stored { a0, at, bytes })?;
        Ok(Reply {
            held: Held::Storing(stored),
        })
    }

    /// The reply by which a process goes on from an image's first state.
    pub fn with_image(alloc: Global, image: Image) -> Result<Reply, AllocError>
        ensures { IfOk result (λ r. r ≡ record { a0 = 0; at = 0; bytes = []; image = Some image }) }
    {
        let image = Box::new(alloc, image)?;
        Ok(Reply {
            held: Held::Entering(image),
        })
    }

    fn plain(a0: u32, at: u32) -> Reply
        ensures { result ≡ record { a0 = a0; at = at; bytes = []; image = None } }
    {
        Reply {
            held: Held::Plain { a0, at },
        }
    }

    /// The number for a0.
    pub fn a0(&self) -> u32
        ensures { result ≡ self.now.a0 }
    {
        match &self.held {
            Held::Plain { a0, .. } => *a0,
            Held::Storing(stored) => stored.a0,
            Held::Entering(_) => 0,
        }
    }

    /// The address from which on its bytes go to the memory.
    pub fn at(&self) -> u32
        ensures { result ≡ self.now.at }
    {
        match &self.held {
            Held::Plain { at, .. } => *at,
            Held::Storing(stored) => stored.at,
            Held::Entering(_) => 0,
        }
    }

    /// Its bytes.
    pub fn bytes(&self) -> &[u8]
        ensures { result.now ≡ self.now.bytes }
    {
        match &self.held {
            Held::Storing(stored) => stored.bytes.as_slice(),
            Held::Plain { .. } | Held::Entering(_) => &[],
        }
    }

    /// The image in which the process goes on, if there is one.
    pub fn image(&self) -> Option<&Image>
        ensures { option_map (λ image. image.now) result ≡ self.now.image }
    {
        match &self.held {
            Held::Entering(image) => Some(&**image),
            Held::Plain { .. } | Held::Storing(_) => None,
        }
    }

    /// Whether there is an image in which the process goes on.
    pub fn has_image(&self) -> bool
        ensures { result ≡ is_some self.now.image }
    {
        matches!(&self.held, Held::Entering(_))
    }

    /// The same reply, in memory of its own. One of numbers alone takes none.
    pub fn try_clone(&self, alloc: Global) -> Result<Reply, AllocError>
        ensures { IfOk result (λ copy. copy ≡ self.now) }
    {
        match &self.held {
            Held::Plain { a0, at } => Ok(Reply::plain(*a0, *at)),
            Held::Storing(stored) => {
                let bytes = stored.bytes.try_clone(alloc)?;
                Reply::with_bytes(alloc, stored.a0, stored.at, bytes)
            }
            Held::Entering(image) => Reply::with_image(alloc, image.try_clone(alloc)?),
        }
    }
}
