// What a file comes to, as far as a snapshot keeps it.
use mich_gas::Costs;
use mich_world::World;

/// What a file came to: its world, its prices, how many groups it had, and whether a `Costs` stood, and an `Account`, `Block` or `Group`.
#[derive(Drop)]
pub struct State {
    pub world: World,
    pub costs: Costs,
    pub groups: u64,
    pub costs_stood: bool,
    pub started: bool,
}
