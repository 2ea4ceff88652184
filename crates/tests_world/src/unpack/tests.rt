// What no clause says: that the body of a lambda that is unpacked twice is typed once. What is unpacked is tried by whole files.
ghost use Rattle.std.specs.Prelude.{◌≡◌, true, IfOk};
ghost use Rattle.rules_data.specs.types.Attributes.{pushable};
ghost use Rattle.mich_base.specs.TypeView.{kind};

use mich_base::{Link, Memory, Ty};
use mich_check::cache::Bodies;
use mich_literals::unpacking::unpack_value;
use std::alloc::Global;
use std::test::Fail;

// Lambdas from unit to unit.
fn lambda(alloc: Global) -> Result<Ty, Memory>
    ensures { IfOk result (λ t. pushable (kind t) ≡ true) }
{
    let arg = Link::new(alloc, Ty::Unit)?;
    let ret = Link::new(alloc, Ty::Unit)?;
    Ok(Ty::Lambda(arg, ret))
}

// Whether the lambda of an empty body is unpacked.
fn is_unpacked(alloc: Global, bodies: &mut Bodies) -> Result<bool, Memory> {
    let ty = lambda(alloc)?;
    let found = unpack_value(alloc, bodies, &ty, b"\x05\x02\x00\x00\x00\x00")?;
    Ok(found.is_some())
}

// Whether it is unpacked twice, how often its body was found, and how often it was typed.
fn unpacked_twice(alloc: Global) -> Result<(bool, u64, u64), Memory> {
    let mut bodies = Bodies::new(alloc)?;
    let first = is_unpacked(alloc, &mut bodies)?;
    let second = is_unpacked(alloc, &mut bodies)?;
    let uses = bodies.uses();
    Ok((first && second, uses.hits, uses.misses))
}

#[test]
fn a_body_is_typed_once(rt: HostRuntime) -> Result<(), Fail> {
    let counts = unpacked_twice(rt.alloc())?;
    assert!(rt; counts == (true, 1, 1));
    Ok(())
}
