//! Formulas over numbered symbols, and what they are worth.

ghost use Rattle.std.specs.Prelude.{◌≡◌, ◌<◌, ◌≤◌, ◌^◌, ℕ, ◌∷◌, slice_index, length};
ghost use Rattle.stt_core.specs.Digits.{entry, table};
ghost use Rattle.finite_models.specs.Internal.Worth.{worth, all_one, IsSafe, HasDigits, the_values};

/// A term whose types are left out but for their sizes. A bound variable counts the binders between it and its own, a symbol has its place
/// among the symbols.
#[derive(Drop)]
pub enum Expr {
    Bound(u32),
    Symbol(u32),
    False,
    Not(Box<Expr>),
    Imp(Box<Expr>, Box<Expr>),
    /// That the body is 1 at each of the numbers below the first.
    All(u32, Box<Expr>),
    Eq(Box<Expr>, Box<Expr>),
    /// The entry of a function at an argument, in this base.
    Apply(u32, Box<Expr>, Box<Expr>),
    /// The table of the body, in this base and with this many entries.
    Table(u32, u32, Box<Expr>),
    /// This many times the body, which its variable doesn't occur in.
    Repeat(u32, Box<Expr>),
    /// What this number leaves of the body, which its variable doesn't occur in.
    Whole(u32, Box<Expr>),
}

/// The values of the bound variables in scope, as a list that is linked from the innermost one outwards.
#[derive(Drop)]
pub enum Env<'a> {
    Empty,
    Inner(u32, &'a Env<'a>),
}

impl Env<'_> {
    /// The value of a variable.
    fn get(&self, k: u32) -> u32
        ensures { result ≡ slice_index (the_values self.now) k }
    {
        match self {
            Env::Empty => 0,
            Env::Inner(x, outer) => { if k == 0 { *x } else { outer.get(k - 1) } }
        }
    }
}

/// A digit of a table.
pub fn entry_of(base: u32, table: u32, place: u32) -> u32
    requires { 1 ≤ base }
    ensures { result ≡ entry base table place }
{
    if base == 2 && place < 32 {
        return (table >> place) & 1;
    }
    let mut rest = table;
    for _i in 0..place {
        if rest == 0 {
            return 0;
        }
        rest /= base;
    }
    rest % base
}

/// What a formula or a term is worth.
#[cycle(eval)]
pub fn eval(expr: &Expr, values: &[u32], env: &Env) -> u32
    requires { IsSafe expr.now values.now (the_values env.now) }
    ensures { result ≡ worth expr.now values.now (the_values env.now) }
{
    match expr {
        Expr::Bound(k) => env.get(*k),
        Expr::Symbol(i) => values[*i as usize],
        Expr::False => 0,
        Expr::Not(e) => 1u32.saturating_sub(eval(e, values, env)),
        Expr::Imp(a, b) => {
            if eval(a, values, env) == 1 {
                eval(b, values, env)
            } else {
                1
            }
        }
        Expr::All(n, e) => eval_all(*n, e, values, env),
        Expr::Eq(a, b) => {
            if eval(a, values, env) == eval(b, values, env) {
                1
            } else {
                0
            }
        }
        Expr::Apply(base, f, x) => {
            let function = eval(f, values, env);
            let argument = eval(x, values, env);
            entry_of(*base, function, argument)
        }
        Expr::Table(base, n, e) => eval_table(*base, *n, e, values, env),
        Expr::Repeat(times, e) => eval(e, values, &Env::Inner(0, &*env)) * *times,
        Expr::Whole(count, e) => eval(e, values, &Env::Inner(0, &*env)) % *count,
    }
}

/// Whether the body is 1 at each number below n, as a number.
#[cycle(eval)]
fn eval_all(n: u32, body: &Expr, values: &[u32], env: &Env) -> u32
    requires { (x : ℕ) → x < n → IsSafe body.now values.now (x ∷ the_values env.now) }
    ensures { result ≡ all_one n (λ x. worth body.now values.now (x ∷ the_values env.now)) }
{
    for x in 0..n {
        let inner = Env::Inner(x, &*env);
        if eval(body, values, &inner) != 1 {
            return 0;
        }
    }
    1
}

/// The table of the body.
#[cycle(eval)]
pub fn eval_table(base: u32, n: u32, body: &Expr, values: &[u32], env: &Env) -> u32
    requires small { base ^ n ≤ 2 ^ 20 }
    requires body { HasDigits base n body.now values.now (the_values env.now) }
    ensures { result ≡ table base n (λ x. worth body.now values.now (x ∷ the_values env.now)) }
{
    let mut sum = 0u32;
    let mut power = 1u32;
    for x in 0..n {
        let inner = Env::Inner(x, &*env);
        sum += eval(body, values, &inner) * power;
        power *= base;
    }
    sum
}
