// The address of a new contract, worked out by hand. Runs of code are tried by whole files.
use mich_interpreter::new_contract;

#[test]
fn a_new_contract_has_an_address(rt: HostRuntime) {
    let hash = new_contract(0x0102_0304_0506_0708, 0x090a_0b0c);
    let bytes = [
        1, 2, 3, 4, 5, 6, 7, 8, 9, 10, 11, 12, 0, 0, 0, 0, 0, 0, 0, 0,
    ];
    assert!(rt; hash == bytes);
}
