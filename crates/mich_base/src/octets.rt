// Bytes that several holders share: few of them in the value itself, more of them by a count of holders.
ghost use Rattle.std.specs.Prelude.{◌≡◌, ℕ, ◌+◌, ◌<◌, ◌≤◌, [], ◌∷◌, ◌++◌, length, take, IfOk};
ghost use Rattle.mich_base.specs.Octets.{bytes_of, IsWithin};

use crate::memory::Memory;
use std::alloc::Global;
use std::marker::Model;
use std::rc::Rc;

// How many bytes stand in the value itself.
const SHORT: usize = 22;

#[derive(Debug, Drop)]
enum Held {
    Short(u8, [u8; 22]),
    Long(Rc<Vec<u8>>),
}

/// Bytes, of which a copy takes constant time. Contracts see the list of them.
#[derive(Debug, Drop)]
pub(crate) struct Octets {
    held: Held,
}

impl Model for Octets {
    ghost use Rattle.std.specs.Prelude.{List, ℕ};

    ghost Value = { List ℕ };

    ghost use Rattle.mich_base.specs.Octets.{bytes_of, IsWithin};

    ghost view = { λ a. bytes_of a.held };

    ghost invariant = { λ a. IsWithin a.held };
}

impl Octets {
    /// These bytes. Memory where there is no room for them.
    pub(crate) fn from_vec(bytes: Vec<u8>) -> Result<Octets, Memory>
        ensures { IfOk result (λ o. o ≡ bytes.items) }
    {
        if bytes.len() <= SHORT {
            return Ok(Octets {
                held: short(bytes.as_slice()),
            });
        }
        let alloc = *bytes.allocator();
        let held = Held::Long(Rc::new(alloc, bytes)?);
        Ok(Octets { held })
    }

    /// A copy of these bytes. Memory where there is no room for them.
    pub(crate) fn from_slice(alloc: Global, bytes: &[u8]) -> Result<Octets, Memory>
        ensures { IfOk result (λ o. o ≡ bytes.now) }
    {
        if bytes.len() <= SHORT {
            return Ok(Octets { held: short(bytes) });
        }
        let held = Held::Long(Rc::new(alloc, bytes.to_vec(alloc)?)?);
        Ok(Octets { held })
    }

    /// The bytes.
    pub(crate) fn as_slice(&self) -> &[u8]
        ensures { result.now ≡ self.now }
    {
        match &self.held {
            Held::Short(len, bytes) => &bytes[..*len as usize],
            Held::Long(bytes) => bytes.as_slice(),
        }
    }

    /// An equal value, in constant time. Memory where it has too many holders.
    pub(crate) fn share(&self) -> Result<Octets, Memory>
        ensures { IfOk result (λ o. o ≡ self.now) }
    {
        match &self.held {
            Held::Short(len, bytes) => Ok(Octets {
                held: Held::Short(*len, *bytes),
            }),
            Held::Long(bytes) => {
                let held = Held::Long(bytes.clone()?);
                Ok(Octets { held })
            }
        }
    }

    /// The bytes, or a copy of them where they are held elsewhere too. Memory where there is no room for that.
    pub(crate) fn into_vec(self, alloc: Global) -> Result<Vec<u8>, Memory>
        ensures { IfOk result (λ bytes. bytes.items ≡ self) }
    {
        match self.held {
            Held::Short(len, bytes) => short_vec(alloc, len, bytes),
            Held::Long(bytes) => match Rc::try_unwrap(bytes) {
                Ok(bytes) => Ok(bytes),
                Err(bytes) => Ok(bytes.as_slice().to_vec(alloc)?),
            },
        }
    }
}

fn short(slice: &[u8]) -> Held
    requires { length slice.now ≤ 22 }
    ensures shown { bytes_of result ≡ slice.now }
    ensures within { IsWithin result }
{
    let mut bytes = [0; 22];
    bytes[..slice.len()].copy_from_slice(slice);
    Held::Short(slice.len() as u8, bytes)
}

fn short_vec(alloc: Global, len: u8, bytes: [u8; 22]) -> Result<Vec<u8>, Memory>
    requires { len ≤ 22 }
    ensures { IfOk result (λ copy. copy.items ≡ take len bytes) }
{
    Ok(bytes[..len as usize].to_vec(alloc)?)
}
