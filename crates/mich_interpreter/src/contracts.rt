// The addresses of contracts that are made.
ghost use Rattle.std.specs.Prelude.{◌≡◌};
ghost use Rattle.rules_code.specs.evaluation.Operations.{new_contract};

/// The 20 bytes of a new contract, by its group's number and how many originations the group had before: the number in 8 bytes and the
/// count in 4, the greatest byte first, and zeros (this host's own).
pub fn new_contract(group: u64, before: u32) -> [u8; 20]
    ensures { result ≡ new_contract group before }
{
    let [a, b, c, d, e, f, g, h] = group.to_be_bytes();
    let [i, j, k, l] = before.to_be_bytes();
    [a, b, c, d, e, f, g, h, i, j, k, l, 0, 0, 0, 0, 0, 0, 0, 0]
}
