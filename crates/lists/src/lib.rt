// Lists: definitions and laws, and what any slice or array may be asked for. Nothing of SCSI.
#![tactic(auto)]

ghost use Rattle.std.specs.Prelude.{◌≡◌, [], ◌∷◌, ◌++◌, ◌+◌, ◌<◌, ◌≤◌, Bool, take, drop, set, length, map, filter};
ghost use Rattle.std.specs.List.{list_any};
ghost use Rattle.lists.specs.Lists.{pairs};
ghost use Rattle.lists.specs.Tables.{filled};
ghost use Rattle.lists.specs.Tests.{Makes, Decides, DecidesTwo};

// The first elements, as many as are there.
pub fn first<T>(xs: &[T], n: usize) -> &[T]
    ensures { result.now ≡ take n xs.now }
{
    xs.get(..n).unwrap_or(xs)
}

// A counted table: an array of which the first elements are in use, with blanks behind them.
#[derive(Clone, Copy)]
pub struct Table<T, const N: usize> {
    pub count: usize,
    pub items: [T; N],
}

impl<T: Copy, const N: usize> Table<T, N> {
    // One entry more, behind the others.
    pub fn push(&mut self, x: T)
        requires { self.old.count < N }
        ensures { self.new ≡ record { count = self.old.count + 1; items = set self.old.items self.old.count x } }
    {
        self.items[self.count] = x;
        self.count += 1;
    }

    // The entries in use; a count past the size is read as the size.
    pub fn in_use(&self) -> &[T]
        ensures in_use { result.now ≡ take self.now.count self.now.items }
        ensures few { length result.now ≤ N }
    {
        first(&self.items, self.count)
    }
}

// The table of those elements that pass.
pub fn kept<T: Copy, const N: usize, F: Fn(&T) -> bool>(
    blank: T,
    xs: &[T],
    passes: F,
) -> Table<T, N>
    requires few { length xs.now ≤ N }
    requires callable { F.IsAlwaysCallable passes }
    ensures { (p : T → Bool) → Decides F.Fn passes p → result ≡ filled blank N (filter p xs.now) }
{
    let mut items = [blank; N];
    let mut count = 0;
    for x in xs {
        if passes(x) {
            items[count] = *x;
            count += 1;
        }
    }
    Table { count, items }
}

// The table of these elements.
pub fn copied<T: Copy, const N: usize>(blank: T, xs: &[T]) -> Table<T, N>
    requires { length xs.now ≤ N }
    ensures { result ≡ filled blank N xs.now }
{
    let mut items = [blank; N];
    let count = xs.len();
    items[..count].copy_from_slice(xs);
    Table { count, items }
}

// The table of these elements and one more, behind them.
pub fn added<T: Copy, const N: usize>(blank: T, xs: &[T], x: T) -> Table<T, N>
    requires { length xs.now < N }
    ensures { result ≡ filled blank N (xs.now ++ (x ∷ [])) }
{
    let mut table = copied(blank, xs);
    table.items[table.count] = x;
    table.count += 1;
    table
}

// Whether an element and one of some others are related.
fn some_related<T, F: Fn(&T, &T) -> bool>(x: &T, others: &[T], related: &F) -> bool
    requires { F.IsAlwaysCallable related.now }
    ensures { (f : T → T → Bool) → DecidesTwo F.Fn related.now f → result ≡ list_any (f x.now) others.now }
{
    for y in others {
        if related(x, y) {
            return true;
        }
    }
    false
}

// Whether some element and a later one are related.
pub fn some_pair<T, F: Fn(&T, &T) -> bool>(xs: &[T], related: F) -> bool
    requires { F.IsAlwaysCallable related }
    ensures { (f : T → T → Bool) → DecidesTwo F.Fn related f → result ≡ pairs f xs.now }
{
    let mut rest = xs;
    while let Some((x, later)) = rest.split_first() {
        if some_related(x, later, &related) {
            return true;
        }
        rest = later;
    }
    false
}

// The elements behind the first n; none where there are no more than n.
pub fn behind<T>(xs: &[T], n: usize) -> &[T]
    ensures { result.now ≡ drop n xs.now }
{
    xs.get(n..).unwrap_or(&[])
}

// What a function makes of each entry of an array.
pub fn mapped<A, B: Copy, const N: usize, F: Fn(&A) -> B>(
    blank: B,
    from: &[A; N],
    made: F,
) -> [B; N]
    requires { F.IsAlwaysCallable made }
    ensures { (m : A → B) → Makes F.Fn made m → result ≡ map m from.now }
{
    let mut items = [blank; N];
    for k in 0..N {
        items[k] = made(&from[k]);
    }
    items
}
