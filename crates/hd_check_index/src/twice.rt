//! Numbers that stand twice.
ghost use Rattle.std.specs.Prelude.{◌≡◌, ◌<◌, ℕ, true, false, IfNone, IfSome};
ghost use Rattle.std.specs.List.Sorted.{IsNonDecreasing};
ghost use Rattle.hd_check_index.specs.Marks.{IsTwice};

/// The least number but 0 that stands twice among numbers in order.
pub fn first_twice(names: &[u32]) -> Option<u32>
    ensures none { IsNonDecreasing names.now → IfNone result ((n : ℕ) → 0 < n → IsTwice n names.now → ⊥) }
    ensures some { IsNonDecreasing names.now → IfSome result (λ n. (0 < n) × IsTwice n names.now × ((m : ℕ) → 0 < m → m < n → IsTwice m names.now → ⊥)) }
{
    for i in 1..names.len() {
        if names[i] != 0 && names[i] == names[i - 1] {
            return Some(names[i]);
        }
    }
    None
}

/// Whether a number stands at most once among numbers in order.
pub fn is_once(names: &[u32], number: u32) -> bool
    ensures once { IsNonDecreasing names.now → result ≡ true → IsTwice number names.now → ⊥ }
    ensures twice { IsNonDecreasing names.now → result ≡ false → IsTwice number names.now }
{
    let Ok(index) = names.binary_search(&number) else {
        return true;
    };
    if index > 0 && names[index - 1] == number {
        return false;
    }
    index + 1 >= names.len() || names[index + 1] != number
}
