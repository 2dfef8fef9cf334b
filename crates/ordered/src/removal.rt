// Taking items out of a list.
//
// A slice and a count, as for entering: the memory is the caller's.
ghost use Rattle.std.specs.Prelude.{◌≡◌, ◌≤◌, Bool, length, take};
ghost use Rattle.std.specs.Fn.{FnReturnsAt};
ghost use Rattle.ordered.specs.Promises.{Retains};

// Keeps those of the first `count` items that pass, in their order, and tells how many they are; from there on all stays.
pub fn retain<T: Copy, F: Fn(&T) -> bool>(items: &mut [T], count: usize, keep: F) -> usize
    requires { F.IsAlwaysCallable keep }
    ensures few { result ≤ length (take count items.old) }
    ensures kept { (passes : T → Bool) → ((x : T) (b : Bool) → FnReturnsAt F.Fn keep x b → b ≡ passes x) → Retains passes (take count items.old) items.old items.new result }
{
    // By index: one pass both reads and writes the slice, and the library's `retain` is of lists that own their memory.
    let mut passed = 0;
    for i in 0..count.min(items.len()) {
        let item = items[i];
        if keep(&item) {
            items[passed] = item;
            passed += 1;
        }
    }
    passed
}
