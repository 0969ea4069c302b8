//! By which names runs of the recovery asked for files. It cannot tell apart what differs in other files alone.
use kernel_model::Request;
use std::alloc::{AllocError, Global};
use std::collections::BTreeSet;

/// The mode of an open that makes a file where none has the name.
const MAKES: u32 = 2;

/// The names by which runs asked for files, whether there were such files or not.
#[derive(Drop)]
pub struct Asked {
    pub names: BTreeSet<Vec<u8>>,
    /// Whether a file was asked for that is made where there is none. That is refused where too many live.
    pub makes: bool,
}

impl Asked {
    /// None yet.
    pub fn new(alloc: Global) -> Asked {
        Asked {
            names: BTreeSet::new(alloc),
            makes: false,
        }
    }

    fn add_name(&mut self, alloc: Global, name: &[u8]) -> Result<(), AllocError> {
        if !self.names.contains(name) {
            self.names.insert(Vec::from_slice(alloc, name)?)?;
        }
        Ok(())
    }

    /// Adds the names in a request.
    pub fn add(&mut self, alloc: Global, request: &Request) -> Result<(), AllocError> {
        match request {
            Request::Open {
                mode,
                name: Some(name),
                ..
            } => {
                self.makes = self.makes || *mode == MAKES;
                self.add_name(alloc, name.as_slice())
            }
            Request::Unlink {
                name: Some(name),
                ..
            }
            | Request::Exec {
                name: Some(name),
                ..
            } => self.add_name(alloc, name.as_slice()),
            Request::Rename {
                n,
                names: Some(names),
                ..
            } => {
                let names = names.as_slice();
                let (old, new) = names.split_at(names.len().min(*n as usize));
                self.add_name(alloc, old)?;
                self.add_name(alloc, new)
            }
            _ => Ok(()),
        }
    }

    /// Adds what other runs asked for. Whether some of it is new.
    pub fn join(&mut self, alloc: Global, others: &Asked) -> Result<bool, AllocError> {
        let (count, made) = (self.names.len(), self.makes);
        for name in others.names.iter() {
            self.add_name(alloc, name.as_slice())?;
        }
        self.makes = self.makes || others.makes;
        Ok(self.names.len() != count || self.makes != made)
    }
}
