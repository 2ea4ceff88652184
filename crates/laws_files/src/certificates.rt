//! Laws of certificates of typing.

ghost use Rattle.laws_files.specs.certificates.Laws.{CertificatesAreValid, ValidScriptsAreTyped, OneDerivation, CertificatesAreReadable, BlocksAreTyped, ScriptBlocksAreTyped, DerivationsHaveTypes};

/// What is certified is valid.
pub fn certificates_are_valid()
    ensures { CertificatesAreValid }
{}

/// The script of a valid node is one that typing accepts, and its entries are the derivation of that script.
pub fn valid_scripts_are_typed()
    ensures { ValidScriptsAreTyped }
{}

/// A script has one derivation.
pub fn one_derivation()
    ensures { OneDerivation }
{}

/// A certificate has no more levels and bytes than a statement may have.
pub fn certificates_are_readable()
    ensures { CertificatesAreReadable }
{}

/// Where typing accepts an instruction it accepts each block within it (Michelson reference, "Control structures").
pub fn blocks_are_typed()
    ensures { BlocksAreTyped }
{}

/// Where typing accepts a script it accepts each of its blocks (Michelson reference, "Scripts").
pub fn script_blocks_are_typed()
    ensures { ScriptBlocksAreTyped }
{}

/// The types of the derivation of an accepted script can be read again from their nodes (Michelson reference, "Types").
pub fn derivations_have_types()
    ensures { DerivationsHaveTypes }
{}
