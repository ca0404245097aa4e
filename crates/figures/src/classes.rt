//! Classes of values: one for each value below 64, and 32 for each doubling from there on.
ghost use Rattle.std.specs.Prelude.{◌≡◌, ◌<◌, ◌≤◌, ◌^◌, ℕ, List, length, slice_index, All};
ghost use Rattle.figures.specs.Classes.{class_of as class_is, top_of as top_is, class_at as class_at_rank, in_class};

/// The class of a value below 2^50.
#[inline(always)]
pub fn class_of(value: u64) -> usize
    requires { value < 2 ^ 50 }
    ensures class { result ≡ class_is value }
    ensures within { result < 1472 }
{
    let halvings = 58_u32.saturating_sub(value.leading_zeros());
    (32 * halvings) as usize + (value >> halvings) as usize
}

/// The greatest value of a class.
pub fn top_of(class: usize) -> u64
    requires { class < 1472 }
    ensures { result ≡ top_is class }
{
    let halvings = (class / 32).saturating_sub(1);
    (((class - 32 * halvings + 1) as u64) << halvings) - 1
}

/// The class in which the value of a rank lies, counted from 1, by how many values there are and how many of them are of
/// each class but the lowest. The search goes down, since most ranks that are asked for lie near the greatest value.
pub fn class_at(count: u64, counts: &[u64], rank: u64) -> usize
    requires size { length counts.now ≤ 1472 }
    requires rank { rank ≤ count }
    ensures class { (xs : List ℕ) → count ≡ length xs → All (λ x. x < 2 ^ 50) xs → ((c : ℕ) → 1 ≤ c → c < 1472 → slice_index counts.now c ≡ in_class xs c) → result ≡ class_at_rank xs rank }
    ensures within { result < 1472 }
{
    let mut upto = count;
    for class in (1..counts.len()).rev() {
        upto = upto.saturating_sub(counts[class]);
        if upto < rank {
            return class;
        }
    }
    0
}
