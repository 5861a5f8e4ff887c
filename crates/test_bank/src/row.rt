//! What a line asks for.

use anyhow::{Context, bail};

/// A row. Powers are those of Church numerals.
#[derive(Clone, Copy)]
pub enum Row {
    /// `(f (g c) (g c))` comes in twice.
    TwiceImported,
    /// A constant is doubled forty times.
    Doubled,
    /// The function that doubles its argument forty times is applied to a constant.
    DoubledAtConstant,
    /// `(^i.^i.#1 c)` is `^i.c`.
    OutcomeIsConstant,
    /// `k` is `^(i > i).(k ^i.(#1 #0))`.
    FunctionIsLong,
    /// So many pairs, each of the two terms before it.
    Interned(u64),
    /// A power, worked out over a bank.
    Power(u32, u32),
    /// A power, worked out as a whole tree.
    Plain(u32, u32),
}

fn two(numbers: &str) -> anyhow::Result<(u32, u32)> {
    let (base, exponent) = numbers.split_once(' ').context("one number only")?;
    Ok((base.parse()?, exponent.parse()?))
}

/// The row that a line asks for.
pub fn row_of(line: &str) -> anyhow::Result<Row> {
    let (what, numbers) = line.split_once(' ').context("no space")?;
    match what {
        "interned" => Ok(Row::Interned(numbers.parse()?)),
        "power" => {
            let (base, exponent) = two(numbers)?;
            Ok(Row::Power(base, exponent))
        }
        "plain" => {
            let (base, exponent) = two(numbers)?;
            Ok(Row::Plain(base, exponent))
        }
        _ => named(line),
    }
}

fn named(line: &str) -> anyhow::Result<Row> {
    match line {
        "(f (g c) (g c)) twice" => Ok(Row::TwiceImported),
        "forty doublings" => Ok(Row::Doubled),
        "forty doublings at a constant" => Ok(Row::DoubledAtConstant),
        "(^^1 c) is ^c" => Ok(Row::OutcomeIsConstant),
        "k is ^(k ^(1 0))" => Ok(Row::FunctionIsLong),
        _ => bail!("{line}: no row"),
    }
}
