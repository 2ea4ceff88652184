// The attributes of types.
ghost use Rattle.std.specs.Prelude.{◌≡◌};
ghost use Rattle.rules_data.specs.types.Attributes.{big_value, comparable, duplicable, packable, passable, pushable, storable};
ghost use Rattle.mich_base.specs.TypeView.{kind};

use mich_base::Ty;

/// Whether values of a type can be compared (Michelson reference, "Comparable types").
pub fn comparable(ty: &Ty) -> bool
    ensures { result ≡ comparable (kind ty.now) }
{
    match ty {
        Ty::List(_)
        | Ty::Set(_)
        | Ty::Contract(_)
        | Ty::Ticket(_)
        | Ty::Map(_, _)
        | Ty::BigMap(_, _)
        | Ty::Lambda(_, _)
        | Ty::Operation => false,
        Ty::Option(a) => comparable(a.get()),
        Ty::Or(a, b) | Ty::Pair(a, b) => comparable(a.get()) && comparable(b.get()),
        _ => true,
    }
}

/// Whether values of a type can be handed to a contract (Michelson reference, "Passable types").
pub fn passable(ty: &Ty) -> bool
    ensures { result ≡ passable (kind ty.now) }
{
    match ty {
        Ty::Operation => false,
        Ty::Option(a) | Ty::List(a) | Ty::Set(a) => passable(a.get()),
        Ty::Or(a, b) | Ty::Pair(a, b) | Ty::Map(a, b) | Ty::BigMap(a, b) => passable(a.get())
            && passable(b.get()),
        _ => true,
    }
}

/// Whether values of a type can be stored (Michelson reference, "Storable types").
pub fn storable(ty: &Ty) -> bool
    ensures { result ≡ storable (kind ty.now) }
{
    match ty {
        Ty::Contract(_) | Ty::Operation => false,
        Ty::Option(a) | Ty::List(a) | Ty::Set(a) => storable(a.get()),
        Ty::Or(a, b) | Ty::Pair(a, b) | Ty::Map(a, b) | Ty::BigMap(a, b) => storable(a.get())
            && storable(b.get()),
        _ => true,
    }
}

/// Whether values of a type can be written as literals in code (Michelson reference, "Pushable types").
pub fn pushable(ty: &Ty) -> bool
    ensures { result ≡ pushable (kind ty.now) }
{
    match ty {
        Ty::BigMap(_, _) | Ty::Contract(_) | Ty::Operation | Ty::Ticket(_) => false,
        Ty::Option(a) | Ty::List(a) | Ty::Set(a) => pushable(a.get()),
        Ty::Or(a, b) | Ty::Pair(a, b) | Ty::Map(a, b) => pushable(a.get()) && pushable(b.get()),
        _ => true,
    }
}

/// Whether values of a type can be serialized (Michelson reference, "Packable types").
pub fn packable(ty: &Ty) -> bool
    ensures { result ≡ packable (kind ty.now) }
{
    match ty {
        Ty::BigMap(_, _) | Ty::Operation | Ty::Ticket(_) => false,
        Ty::Option(a) | Ty::List(a) | Ty::Set(a) => packable(a.get()),
        Ty::Or(a, b) | Ty::Pair(a, b) | Ty::Map(a, b) => packable(a.get()) && packable(b.get()),
        _ => true,
    }
}

/// Whether values of a type can be values of a big map (Michelson reference, "Big map value types").
pub fn big_value(ty: &Ty) -> bool
    ensures { result ≡ big_value (kind ty.now) }
{
    match ty {
        Ty::BigMap(_, _) | Ty::Contract(_) | Ty::Operation => false,
        Ty::Option(a) | Ty::List(a) | Ty::Set(a) => big_value(a.get()),
        Ty::Or(a, b) | Ty::Pair(a, b) | Ty::Map(a, b) => big_value(a.get()) && big_value(b.get()),
        _ => true,
    }
}

/// Whether values of a type can be copied (Michelson reference, "Duplicable types").
pub fn duplicable(ty: &Ty) -> bool
    ensures { result ≡ duplicable (kind ty.now) }
{
    match ty {
        Ty::Ticket(_) => false,
        Ty::Option(a) | Ty::List(a) | Ty::Set(a) => duplicable(a.get()),
        Ty::Or(a, b) | Ty::Pair(a, b) | Ty::Map(a, b) | Ty::BigMap(a, b) => duplicable(a.get())
            && duplicable(b.get()),
        _ => true,
    }
}
