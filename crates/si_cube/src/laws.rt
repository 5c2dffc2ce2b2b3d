//! Laws of the rule by which a sum is chosen. Each function does nothing: its contract is the law.

ghost use Rattle.std.specs.Prelude.{◌≡◌, ℕ, ◌<◌, ◌^◌, List, All};
ghost use Rattle.si_base.specs.WellFormed.{IsSum};
ghost use Rattle.si_cube.specs.Covers.{Demand, IsMeetable, IsPrimeCover};
ghost use Rattle.si_cube.specs.Order.{HaveSame};
ghost use Rattle.si_cube.specs.Rule.{chosen};

/// The chosen sum of a demand that can be met is a cover, prime and irredundant.
pub fn chosen_sums_are_prime_covers()
    ensures { (signals : ℕ) (d : Demand) → All (λ k. k < 2 ^ signals) d.required
        → All (λ k. k < 2 ^ signals) d.forbidden → IsMeetable d
        → IsPrimeCover d (chosen signals d) }
{}

/// The chosen sums have their literals in rising signal order, each of one of the signals.
pub fn chosen_sums_are_well_formed()
    ensures { (signals : ℕ) (d : Demand) → IsSum signals (chosen signals d) }
{}

/// In which order the forbidden codes are handed in, and how often each, doesn't matter.
pub fn order_of_forbidden_codes_does_not_matter()
    ensures { (signals : ℕ) (required one other : List ℕ) → HaveSame one other
        → chosen signals (record { required = required; forbidden = one })
        ≡ chosen signals (record { required = required; forbidden = other }) }
{}
