// A set of the stations 0..255, as four words of 64 bits: station j is bit j % 64 of word j / 64.
#![tactic(auto)]

ghost use Rattle.std.specs.Prelude.{◌≡◌, ℕ, ◌+◌, ◌*◌, ◌<◌, ◌≤◌, eqb, ltb, length, get_or};
ghost use Rattle.std.specs.Bool.{xor};
ghost use Rattle.std.specs.Iterator.{at_most};
ghost use Rattle.std.specs.Int.Count.{ones, count_trailing_zeros};
ghost use Rattle.stations.specs.Sets.{none, only, stations, size, ◌joined◌, ◌cut◌, ◌without◌};
ghost use Rattle.stations.specs.Words.{bit, words, members, row, put_row};
ghost use Rattle.stations.specs.Answers.{FirstOf, Popped, BitPopped, Emptiness, Sameness, Order, FirstRow};

#[derive(Clone, Copy, PartialEq, Eq)]
pub struct StationSet {
    pub a: u64,
    pub b: u64,
    pub c: u64,
    pub d: u64,
}

// The part of {j} that stands in word i.
fn one_in(i: usize, j: usize) -> u64
    requires { i < 4 }
    ensures { (k : ℕ) → k < 64 → bit result k ≡ eqb (i * 64 + k) j }
{
    if j / 64 == i { 1 << (j % 64) } else { 0 }
}

// The part of {0 .. n - 1} that stands in word i.
fn low_in(i: usize, n: usize) -> u64
    requires { i < 4 }
    ensures { (k : ℕ) → k < 64 → bit result k ≡ ltb (i * 64 + k) n }
{
    let from = i * 64;
    if n <= from {
        return 0;
    }
    let m = n - from;
    if 64 <= m {
        return 0xffff_ffff_ffff_ffff;
    }
    (1 << m) - 1
}

// The place of the lowest set bit, 64 where there is none.
pub fn low_bit(w: u64) -> usize
    ensures { (result ≡ count_trailing_zeros 64 w) × (result ≤ 64) }
{
    w.trailing_zeros() as usize
}

// How many bits are set.
fn ones_of(w: u64) -> usize
    ensures { (result ≡ ones w) × (result ≤ 64) }
{
    w.count_ones() as usize
}

impl StationSet {
    pub fn empty() -> Self
        ensures { (x : ℕ) → members result x ≡ none x }
    {
        Self {
            a: 0,
            b: 0,
            c: 0,
            d: 0,
        }
    }

    // {j}
    pub fn one(j: usize) -> Self
        requires { j < 256 }
        ensures { (x : ℕ) → members result x ≡ only j x }
    {
        let a = one_in(0, j);
        let b = one_in(1, j);
        let c = one_in(2, j);
        let d = one_in(3, j);
        Self { a, b, c, d }
    }

    // {0 .. n - 1}
    pub fn first_n(n: usize) -> Self
        requires { n ≤ 256 }
        ensures { (x : ℕ) → members result x ≡ stations n x }
    {
        let a = low_in(0, n);
        let b = low_in(1, n);
        let c = low_in(2, n);
        let d = low_in(3, n);
        Self { a, b, c, d }
    }

    // The row i of a table, four words to a row, read one by one as `put_row` writes them.
    pub fn of_row(t: &[u64], i: usize) -> Self
        requires { i * 4 + 4 ≤ length t.now }
        ensures { words result ≡ row t.now i }
    {
        let at = i * 4;
        Self {
            a: t[at],
            b: t[at + 1],
            c: t[at + 2],
            d: t[at + 3],
        }
    }

    // The set's words into the row i of a table, one by one: for `copy_from_slice` the proof didn't close.
    pub fn put_row(self, t: &mut [u64], i: usize)
        requires { i * 4 + 4 ≤ length t.old }
        ensures { t.new ≡ put_row t.old i self.a self.b self.c self.d }
    {
        let at = i * 4;
        t[at] = self.a;
        t[at + 1] = self.b;
        t[at + 2] = self.c;
        t[at + 3] = self.d;
    }

    fn word(self, i: usize) -> u64
        ensures { result ≡ get_or (words self) i 0 }
    {
        if i < 2 {
            if i < 1 { self.a } else { self.b }
        } else if i < 3 {
            self.c
        } else if i < 4 {
            self.d
        } else {
            0
        }
    }

    // Its words, the lowest stations first.
    pub fn words(self) -> [u64; 4]
        ensures { result ≡ words self }
    {
        [self.a, self.b, self.c, self.d]
    }

    pub fn has(self, j: usize) -> bool
        ensures { result ≡ members self j }
    {
        let w = self.word(j / 64);
        w >> (j % 64) & 1 == 1
    }

    // This one, and the three after it: a line for each word. A function over a closure would say each operation twice, in code and in clause.
    pub fn join(self, o: StationSet) -> Self
        ensures { (x : ℕ) → members result x ≡ (members self joined members o) x }
    {
        Self {
            a: self.a | o.a,
            b: self.b | o.b,
            c: self.c | o.c,
            d: self.d | o.d,
        }
    }

    pub fn cut(self, o: StationSet) -> Self
        ensures { (x : ℕ) → members result x ≡ (members self cut members o) x }
    {
        Self {
            a: self.a & o.a,
            b: self.b & o.b,
            c: self.c & o.c,
            d: self.d & o.d,
        }
    }

    pub fn minus(self, o: StationSet) -> Self
        ensures { (x : ℕ) → members result x ≡ (members self without members o) x }
    {
        Self {
            a: self.a ^ (self.a & o.a),
            b: self.b ^ (self.b & o.b),
            c: self.c ^ (self.c & o.c),
            d: self.d ^ (self.d & o.d),
        }
    }

    // The stations in one of the two and not in the other.
    pub fn differ(self, o: StationSet) -> Self
        ensures { (x : ℕ) → members result x ≡ xor (members self x) (members o x) }
    {
        Self {
            a: self.a ^ o.a,
            b: self.b ^ o.b,
            c: self.c ^ o.c,
            d: self.d ^ o.d,
        }
    }

    pub fn with(self, j: usize) -> Self
        requires { j < 256 }
        ensures { (x : ℕ) → members result x ≡ (members self joined only j) x }
    {
        self.join(StationSet::one(j))
    }

    pub fn without(self, j: usize) -> Self
        requires { j < 256 }
        ensures { (x : ℕ) → members result x ≡ (members self without only j) x }
    {
        self.minus(StationSet::one(j))
    }

    // The smallest station.
    pub fn first(self) -> Option<usize>
        ensures { FirstOf (members self) result }
    {
        if self.a != 0 {
            return Some(low_bit(self.a));
        }
        if self.b != 0 {
            return Some(64 + low_bit(self.b));
        }
        if self.c != 0 {
            return Some(128 + low_bit(self.c));
        }
        if self.d != 0 {
            return Some(192 + low_bit(self.d));
        }
        None
    }

    // Takes the smallest station out.
    fn pop_first(&mut self) -> Option<usize>
        ensures { Popped (members self.old) result (members self.new) }
    {
        if self.a != 0 {
            let j = low_bit(self.a);
            self.a &= self.a - 1;
            return Some(j);
        }
        if self.b != 0 {
            let j = 64 + low_bit(self.b);
            self.b &= self.b - 1;
            return Some(j);
        }
        if self.c != 0 {
            let j = 128 + low_bit(self.c);
            self.c &= self.c - 1;
            return Some(j);
        }
        if self.d != 0 {
            let j = 192 + low_bit(self.d);
            self.d &= self.d - 1;
            return Some(j);
        }
        None
    }

    pub fn is_empty(self) -> bool
        ensures { Emptiness (members self) result }
    {
        self.first().is_none()
    }

    pub fn same(self, o: StationSet) -> bool
        ensures { Sameness (members self) (members o) result }
    {
        self == o
    }

    // Does this set come before the other? It is no `Ord`: the laws of that range over words beyond 64 bits too, where sets that differ can have the
    // same stations.
    pub fn before(self, o: StationSet) -> bool
        ensures { Order (members self) (members o) result }
    {
        match self.differ(o).first() {
            Some(j) => self.has(j),
            None => false,
        }
    }

    pub fn size(self) -> usize
        ensures { result ≡ size 256 (members self) }
    {
        let a = ones_of(self.a);
        let b = ones_of(self.b);
        let c = ones_of(self.c);
        let d = ones_of(self.d);
        a + (b + (c + d))
    }
}

// The stations of a set, rising.
#[derive(Clone, Copy)]
pub struct Stations {
    pub left: StationSet,
}

impl Iterator for Stations {
    type Item = usize;

    ghost next_gives = { λ s r t. Popped (members s.left) r (members t.left) };

    ghost remaining = { λ s. at_most (size 256 (members s.left)) };

    fn next(&mut self) -> Option<usize> {
        self.left.pop_first()
    }
}

impl IntoIterator for StationSet {
    type Item = usize;

    type IntoIter = Stations;

    ghost into_iter_gives = { λ s it. it.left ≡ s };

    fn into_iter(self) -> Stations {
        Stations { left: self }
    }
}

// The set bits of a word, rising. Where many sets are gone over, a loop over their words and these is faster than one over the stations.
#[derive(Clone, Copy)]
pub struct Bits {
    pub word: u64,
}

impl Iterator for Bits {
    type Item = usize;

    ghost next_gives = { λ s r t. BitPopped s.word r t.word };

    ghost remaining = { λ s. at_most (size 64 (bit s.word)) };

    fn next(&mut self) -> Option<usize> {
        if self.word == 0 {
            return None;
        }
        let k = low_bit(self.word);
        self.word &= self.word - 1;
        Some(k)
    }
}

// The order question: the caller's own row that comes first (rules O1 to O3). It has no refusal: where a row has not four words, the reply has none.
pub fn first_row<'a>(x: &'a [u64], y: &'a [u64]) -> &'a [u64]
    ensures { FirstRow x.entry y.entry result }
{
    if x.len() != 4 {
        return &x[..0];
    }
    if y.len() != 4 {
        return &x[..0];
    }
    let u = StationSet::of_row(x, 0);
    let v = StationSet::of_row(y, 0);
    if v.before(u) { y } else { x }
}
