// Lists as the specifications use them: definitions in specs/, laws in proofs/.
// The code changes a list in the first `count` places of a slice, as a struct of an array and a count holds it, and answers the count.
// Slice and count are two parameters: fields of the caller's struct; one of both, made for each call, would be no plainer.
#![tactic(auto)]

ghost use Rattle.std.specs.Prelude.{◌≡◌, ◌+◌, ◌-◌, cond, length, set, ltb};
ghost use Rattle.lists.specs.Gap.{close_gap};
ghost use Rattle.lists.specs.Row.{in_use};

// One item more, last, and the count after it; nothing changes where there is no room.
pub fn append<T: Copy>(items: &mut [T], count: usize, item: T) -> usize
    ensures places { items.new ≡ cond (ltb count (length items.old)) (set items.old count item) items.old }
    ensures count { result ≡ cond (ltb count (length items.old)) (count + 1) count }
{
    if items.len() <= count {
        return count;
    }
    items[count] = item;
    count + 1
}

// Another item at a place; nothing changes where no item stands there.
pub fn put_at<T: Copy>(items: &mut [T], count: usize, place: usize, item: T)
    ensures { items.new ≡ cond (ltb place (in_use count items.old)) (set items.old place item) items.old }
{
    if place < count.min(items.len()) {
        items[place] = item;
    }
}

// Without the item at a place, those behind it moved down by one, and the count after it; nothing changes where no item stands there.
pub fn take_out<T: Copy>(items: &mut [T], count: usize, place: usize) -> usize
    ensures places { items.new ≡
        cond (ltb place (in_use count items.old)) (close_gap place (in_use count items.old - 1) items.old) items.old }
    ensures count { result ≡ cond (ltb place (in_use count items.old)) (in_use count items.old - 1) count }
{
    let n = count.min(items.len());
    if n <= place {
        return count;
    }
    items.copy_within(place + 1..n, place);
    n - 1
}

// Without the item at a place, another last, and the count after it; nothing changes where no item stands there.
pub fn turn_last<T: Copy>(items: &mut [T], count: usize, place: usize, item: T) -> usize
    ensures places { items.new ≡ cond (ltb place (in_use count items.old))
        (set (close_gap place (in_use count items.old - 1) items.old) (in_use count items.old - 1) item) items.old }
    ensures count { result ≡ cond (ltb place (in_use count items.old)) (in_use count items.old) count }
{
    let n = count.min(items.len());
    if n <= place {
        return count;
    }
    let left = take_out(items, n, place);
    append(items, left, item)
}
