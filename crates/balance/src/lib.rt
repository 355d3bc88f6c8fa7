// Weight-balanced trees: what they are, what is done with them, and the laws of both, in specs/. The trees themselves
// are kept in cells by crates above; here stand the two tests by which every link goes, and the laws by name.
#![tactic(auto)]

ghost use Rattle.std.specs.Prelude.{◌≡◌, ◌*◌, nat_lt};
ghost use Rattle.balance.specs.Trees.{Δ, Γ};
ghost use Rattle.balance.specs.Laws.{ListLaws, LinkLaws, WayLaws, AimLaws, OrderLaws, BalanceLaws, CostLaws, LoopLaws};

// A tree of the weight `heavy` may not stand beside one of the weight `light`.
pub fn outweighs(heavy: u32, light: u32) -> bool
    ensures { result ≡ nat_lt (Δ * light) heavy }
{
    3 * u64::from(light) < u64::from(heavy)
}

// One rotation balances a child whose own children weigh `inner` and `outer`; two are due otherwise.
pub fn rotates_once(inner: u32, outer: u32) -> bool
    ensures { result ≡ nat_lt inner (Γ * outer) }
{
    u64::from(inner) < 2 * u64::from(outer)
}

// The laws hold of trees over any elements.
pub fn stands<T>()
    ensures lists { ListLaws T }
    ensures links { LinkLaws T }
    ensures ways { WayLaws T }
    ensures aims { AimLaws T }
    ensures order { OrderLaws T }
    ensures balance { BalanceLaws T }
    ensures costs { CostLaws T }
    ensures loops { LoopLaws T }
{}
