ghost use Rattle.std.specs.Prelude.{◌≡◌, ◌≤◌};
ghost use Rattle.lw_io.specs.Causes.{counted};

// Counts one more, up to the greatest number, where the count stands still.
pub fn count_one(count: &mut u64)
    ensures counted { count.new ≡ counted count.old }
    ensures later { count.old ≤ count.new }
{
    *count = count.saturating_add(1);
}
