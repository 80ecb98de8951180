// One-sided Jacobi (docs/SCOPE.md 6.2) in the place of nalgebra's singular value decomposition. A matrix A
// and V below it lie in one lent slice w, column after column: of the h numbers of a column the first
// `rows` are A's (data rows, and damping rows below them where there are any) and the next m are V's,
// so that one turn turns A and V. h, rows and m stay parameters: each definition takes them apart, as each clause would a
// struct of them.
#![tactic(auto)]

ghost use Rattle.std.specs.Prelude.{◌≡◌, Bool, true, ◌+◌, ◌*◌, ◌≤◌, ◌<◌, length};
ghost use Rattle.jacobi.specs.Jacobi.{products, turns as turns_of, zeta_of, tan_of, cos_of, turn as turn_of, pair as pair_of, factorised};

// The squared norms of two columns and their dot product. With gamma first the compiler adds the two norms as one vector.
#[derive(Clone, Copy)]
struct Products {
    gamma: f64,
    alpha: f64,
    beta: f64,
}

// How many sweeps were made, and whether the last had no turn: a flag beside a count, since C reads it.
#[repr(C)]
#[derive(Clone, Copy)]
pub struct Sweeps {
    pub made: usize,
    pub settled: bool,
}

impl Products {
    // t of a pair with these sums.
    #[tactic(auto, unfolding(crate::specs::Jacobi::tan_of, crate::specs::Jacobi::zeta_of))]
    fn tangent(self) -> f64
        ensures { result ≡ tan_of (zeta_of self.alpha self.beta self.gamma) }
    {
        let zeta = (self.beta - self.alpha) / (2.0 * self.gamma);
        let root = sqrt::sqrt(1.0 + zeta * zeta);
        let t = 1.0 / (float::abs(zeta) + root);
        if zeta < 0.0 { -t } else { t }
    }

    // Whether columns with these sums turn. The number compared with is 2^-100.
    fn turns(self) -> bool
        ensures { result ≡ turns_of self.alpha self.beta self.gamma }
    {
        self.gamma * self.gamma > 7.888609052210118e-31 * (self.alpha * self.beta)
    }
}

// The three sums of the n numbers from x on and the n from y on, in one pass, each in its own order. By index: as a fold over
// a zip the compiler makes no vector of it, and a factorisation took 2 percent longer.
fn sums(w: &[f64], x: usize, y: usize, n: usize) -> Products
    requires { (x + n ≤ length w.now) × (y + n ≤ length w.now) }
    ensures { result ≡ products n x y w.now }
{
    let mut gamma = 0.0;
    let mut alpha = 0.0;
    let mut beta = 0.0;
    for k in 0..n {
        let p = w[x + k];
        let q = w[y + k];
        gamma += p * q;
        alpha += p * p;
        beta += q * q;
    }
    Products { alpha, beta, gamma }
}

// The n numbers from x on and the n from y on, turned. By index, since each step writes two
// places of one slice: of what a zip lends to write, a proof knows the length alone.
fn turn(w: &mut [f64], x: usize, y: usize, n: usize, c: f64, s: f64)
    requires { (x + n ≤ y) × (y + n ≤ length w.old) }
    ensures { w.new ≡ turn_of c s n x y w.old }
{
    for k in 0..n {
        let p = w[x + k];
        let q = w[y + k];
        w[x + k] = c * p - s * q;
        w[y + k] = s * p + c * q;
    }
}

// c from t. Where t is small the sum is 1, and so is its root.
fn cosine(t: f64) -> f64
    ensures { result ≡ cos_of t }
{
    let x = 1.0 + t * t;
    if x == 1.0 {
        return 1.0;
    }
    1.0 / sqrt::sqrt(x)
}

// The n numbers from x on and the n from y on, turned, and then the sums of those from x on and the n from z on,
// in one pass. Two rows a step, and what is turned loaded before the stores, so that the compiler turns them as one
// vector; the factors of gamma loaded after them, since it then takes them as another.
fn turn_on(w: &mut [f64], x: usize, y: usize, z: usize, n: usize, c: f64, s: f64) -> Products
    requires { (x + n ≤ y) × (y + n ≤ z) × (z + n ≤ length w.old) }
    ensures turned { w.new ≡ turn_of c s n x y w.old }
    ensures sums { result ≡ products n x z w.new }
{
    let mut gamma = 0.0;
    let mut alpha = 0.0;
    let mut beta = 0.0;
    for half in 0..n / 2 {
        let k = 2 * half;
        let i = x + k;
        let j = y + k;
        let l = z + k;
        let p = w[i];
        let q = w[j];
        let r = w[l];
        let p1 = w[i + 1];
        let q1 = w[j + 1];
        let r1 = w[l + 1];
        let t = c * p - s * q;
        let t1 = c * p1 - s * q1;
        let tt = t * t;
        let tt1 = t1 * t1;
        let rr = r * r;
        let rr1 = r1 * r1;
        w[i] = t;
        w[i + 1] = t1;
        w[j] = s * p + c * q;
        w[j + 1] = s * p1 + c * q1;
        let tr = t * w[l];
        let tr1 = t1 * w[l + 1];
        alpha = alpha + tt;
        beta = beta + rr;
        alpha = alpha + tt1;
        beta = beta + rr1;
        gamma = gamma + tr;
        gamma = gamma + tr1;
    }
    let k = 2 * (n / 2);
    if k == n {
        return Products { alpha, beta, gamma };
    }
    let p = w[x + k];
    let q = w[y + k];
    let r = w[z + k];
    let t = c * p - s * q;
    w[x + k] = t;
    w[y + k] = s * p + c * q;
    Products {
        alpha: alpha + t * t,
        beta: beta + r * r,
        gamma: gamma + t * r,
    }
}

// The sums of columns p and q, or zeros where q is past the last column. Not an Option, with which a factorisation took
// 5 percent longer.
fn pair_sums(w: &[f64], h: usize, rows: usize, m: usize, p: usize, q: usize) -> Products
    requires { (p < q) × (rows ≤ h) × (m * h ≤ length w.now) }
    ensures { q < m → result ≡ products rows (p * h) (q * h) w.now }
{
    if q < m {
        return sums(w, p * h, q * h, rows);
    }
    Products {
        gamma: 0.0,
        alpha: 0.0,
        beta: 0.0,
    }
}

// Columns p and q, which turn and whose sums are `a`, turned, V's rows after A's. The pass over A's gives the sums of the
// next pair; where q is the last column, `a` comes back.
fn turn_pair(
    w: &mut [f64],
    h: usize,
    rows: usize,
    m: usize,
    p: usize,
    q: usize,
    a: Products,
) -> Products
    requires { (p < q) × (q < m) × (rows + m ≤ h) × (m * h ≤ length w.old) × (a ≡ products rows (p * h) (q * h) w.old)
        × (turns_of a.alpha a.beta a.gamma ≡ true) }
    ensures turned { (b : Bool) → record { w = w.new; turned = true } ≡ pair_of h rows m p q (record { w = w.old; turned = b }) }
    ensures next { q + 1 < m → result ≡ products rows (p * h) ((q + 1) * h) w.new }
{
    let t = a.tangent();
    let c = cosine(t);
    let x = p * h;
    let y = q * h;
    if q + 1 == m {
        turn(w, x, y, rows + m, c, c * t);
        return a;
    }
    let next = turn_on(w, x, y, y + h, rows, c, c * t);
    turn(w, x + rows, y + rows, m, c, c * t);
    next
}

// Sweeps until one in which no pair turns, at most 30: in each the pairs p < q in rising p, then q, the columns' numbers.
pub fn factorise(w: &mut [f64], h: usize, rows: usize, m: usize) -> Sweeps
    requires { (rows + m ≤ h) × (m * h ≤ length w.old) }
    ensures { record { w = w.new; made = result.made; settled = result.settled } ≡ factorised h rows m w.old }
{
    let mut made = 0;
    let mut settled = false;
    'sweeps: for k in 0..30usize {
        let mut turned = false;
        for p in 0..m {
            let mut a = pair_sums(w, h, rows, m, p, p + 1);
            for q in p + 1..m {
                if a.turns() {
                    a = turn_pair(w, h, rows, m, p, q, a);
                    turned = true;
                } else {
                    a = pair_sums(w, h, rows, m, p, q + 1);
                }
            }
        }
        made = k + 1;
        if !turned {
            settled = true;
            break 'sweeps;
        }
    }
    Sweeps { made, settled }
}
