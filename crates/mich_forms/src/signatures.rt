// Signatures and chain ids.
ghost use Rattle.std.specs.Prelude.{◌≡◌};
ghost use Rattle.std.specs.Option.{SomeIff};
ghost use Rattle.rules_data.specs.forms.Spelling.{IsChainId, IsSignature};

use crate::short_bytes::ShortBytes;
use std::marker::Model;

/// A signature: 64 bytes.
#[derive(Clone, Copy, Debug)]
pub struct Signature {
    pub body: [u8; 64],
}

impl Model for Signature {
    ghost use Rattle.std.specs.Prelude.{◌≡◌, ℕ, List, length};

    ghost Value = { List ℕ };

    ghost view = { λ s. s.body };

    ghost invariant = { λ s. length s.body ≡ 64 };

    ghost inverse = { λ l. record { body = l } };
}

/// The identity of a chain: 4 bytes.
#[derive(Clone, Copy, Debug)]
pub struct ChainId {
    pub body: [u8; 4],
}

impl Model for ChainId {
    ghost use Rattle.std.specs.Prelude.{◌≡◌, ℕ, List, length};

    ghost Value = { List ℕ };

    ghost view = { λ c. c.body };

    ghost invariant = { λ c. length c.body ≡ 4 };

    ghost inverse = { λ l. record { body = l } };
}

impl Signature {
    /// The signature that the bytes spell, None where they are not 64 (Michelson reference, signature).
    pub fn read(bytes: &[u8]) -> Option<Signature>
        ensures { SomeIff result (IsSignature bytes.now) bytes.now }
    {
        let body = <[u8; 64]>::try_from(bytes).ok()?;
        Some(Signature { body })
    }

    /// The spelling, of 64 bytes.
    pub fn bytes(&self) -> ShortBytes
        ensures spelling { result ≡ self.now }
        ensures valid { IsSignature result }
    {
        ShortBytes::joined(&self.body, &[])
    }
}

impl ChainId {
    /// The chain id that the bytes spell, None where they are not 4 (Michelson reference, chain_id).
    pub fn read(bytes: &[u8]) -> Option<ChainId>
        ensures { SomeIff result (IsChainId bytes.now) bytes.now }
    {
        let body = <[u8; 4]>::try_from(bytes).ok()?;
        Some(ChainId { body })
    }

    /// The spelling, of 4 bytes.
    pub fn bytes(&self) -> ShortBytes
        ensures spelling { result ≡ self.now }
        ensures valid { IsChainId result }
    {
        ShortBytes::joined(&self.body, &[])
    }
}
