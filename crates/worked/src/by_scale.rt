// What the library answers on each scale, against a listing of all patterns, known numbers and its limits.
use crate::listing::tallied;
use crate::trying::{answers, evaluated, mixed, singles};
use odds::{Ends, Forecasting, UNIT};
use plans::Plan;
use printing::{Printed, put_answer};
use refusals::Refusal;
use rules::Linear;
use scales::{Count, Counting, Fewest, Minimizing, Scale, Tallying, Weigher};
use std::alloc::Global;
use std::process::Abort;
use std::test::Fail;

// A plan with two parts settled and four open.
fn plan() -> Result<Plan, Fail> {
    mixed(&[700_000_001], &[1, 900_000_000, 3], &[0, 333_333_333])
}

// Lists of n outcomes without two misses in a row and with j misses number the binomial coefficient of n - j + 1 and j.
#[test]
fn binomials(rt: HostRuntime) -> Result<(), Fail> {
    let plan = singles(63)?;
    let [kept, lost, _] = answers(&rt, rt.alloc(), &plan, 2, &Tallying)?;
    let kept = kept.counts;
    let lost = lost.counts;
    assert_eq!(rt; kept[2], 1891);
    assert_eq!(rt; kept[31], 528);
    assert_eq!(rt; kept[32], 1);
    assert_eq!(rt; kept[33], 0);
    assert_eq!(rt; lost[2], 62);
    assert_eq!(rt; lost[63], 1);
    Ok(())
}

// What evaluations on each scale give of a verdict is what the patterns of that verdict come to, listed one by one.
#[test]
fn all_values(rt: HostRuntime) -> Result<(), Fail> {
    let alloc = rt.alloc();
    let plan = plan()?;
    for k in 1..5 {
        let all = tallied(alloc, &plan, &Linear::new(k)?, 64)?;
        let counts = answers(&rt, alloc, &plan, k, &Counting)?;
        let by_missed = answers(&rt, alloc, &plan, k, &Tallying)?;
        let fewest = answers(&rt, alloc, &plan, k, &Minimizing)?;
        assert_eq!(rt;
            counts.map(|value| value.number),
            all.map(|tally| tally.count())
        );
        assert_eq!(rt;
            by_missed.map(|value| value.counts),
            all.map(|tally| tally.by_missed)
        );
        assert_eq!(rt;
            fewest.map(|value| value.least()),
            all.map(|tally| tally.fewest())
        );
    }
    Ok(())
}

// The four open parts of the plan have the exact chance S / U^4, which is between the two ends when S / U^3 is.
#[test]
fn all_chances(rt: HostRuntime) -> Result<(), Fail> {
    let alloc = rt.alloc();
    let plan = plan()?;
    for k in 1..5usize {
        let all = tallied(alloc, &plan, &Linear::new(k)?, 64)?;
        let odds = answers(&rt, alloc, &plan, k, &Forecasting)?;
        for (tally, ends) in all.iter().zip(&odds) {
            let below = tally.exact >> 90;
            let above = tally.exact.saturating_add((1 << 90) - 1) >> 90;
            assert!(rt; u128::from(ends.low) <= below);
            assert!(rt; above <= u128::from(ends.high));
            assert!(rt; ends.high <= ends.low.saturating_add(8 * (k as u64 + 1) * 6));
        }
    }
    Ok(())
}

// What an evaluation by linear 2 replies, in work lists of three and of so many places.
fn replied<W: Weigher>(
    alloc: Global,
    plan: &Plan,
    weigher: &W,
    second: usize,
) -> Result<Result<usize, Refusal>, Fail>
where
    W::Value: Clone,
{
    let mut answer = vec![in alloc; W::Value::zero(); 3]?;
    evaluated(alloc, plan, 2, weigher, [3, second], &mut answer)
}

#[test]
fn most_parts(rt: HostRuntime) -> Result<(), Fail> {
    let alloc = rt.alloc();
    let mut plan = singles(63)?;
    assert_eq!(rt;
        replied(alloc, &plan, &Counting, 2)?,
        Err(Refusal::ShortList)
    );
    assert_eq!(rt; replied(alloc, &plan, &Tallying, 3)?, Ok(3));
    plan.add(&[0])?;
    assert_eq!(rt;
        replied(alloc, &plan, &Counting, 3)?,
        Err(Refusal::TooManyParts)
    );
    assert_eq!(rt;
        replied(alloc, &plan, &Tallying, 2)?,
        Err(Refusal::TooManyParts)
    );
    assert_eq!(rt; replied(alloc, &plan, &Minimizing, 3)?, Ok(3));
    assert_eq!(rt; replied(alloc, &plan, &Forecasting, 3)?, Ok(3));
    Ok(())
}

fn ends(low: u64, high: u64) -> Ends {
    Ends { low, high }
}

// A pair that is no odds is read as 0 to U.
#[test]
fn any_pair(rt: HostRuntime) {
    let half = ends(UNIT / 2, UNIT / 2);
    let crossed = ends(2, 1);
    let above = ends(1, UNIT + 1);
    assert_eq!(rt; crossed.times(half), ends(0, UNIT / 2));
    assert_eq!(rt; half.plus(above), ends(UNIT / 2, UNIT));
    assert_eq!(rt; above.times(crossed), ends(0, UNIT));
    let third = ends(357_913_941, 357_913_942);
    assert_eq!(rt; third.times(third), ends(119_304_646, 119_304_648));
}

// The line of three answers, in a plan of so many parts.
fn printed<V: Printed>(
    rt: &impl Abort,
    alloc: Global,
    parts: usize,
    kept: &V,
    lost: &V,
    aside: &V,
    text: &str,
) -> Result<(), Fail> {
    let mut out = String::new(alloc);
    put_answer(0, parts, kept, lost, aside, &mut out)?;
    assert_eq!(rt; out.as_str(), text);
    Ok(())
}

// The lines that the table of worked lines has, printed.
#[test]
fn lines_printed(rt: HostRuntime) -> Result<(), Fail> {
    let alloc = rt.alloc();
    let plan = singles(4)?;
    let [kept, lost, aside] = answers(&rt, alloc, &plan, 2, &Counting)?;
    printed(&rt, alloc, 4, &kept, &lost, &aside, "A 0 8 8 0\n")?;
    let [kept, lost, aside] = answers(&rt, alloc, &plan, 2, &Tallying)?;
    printed(
        &rt,
        alloc,
        4,
        &kept,
        &lost,
        &aside,
        "A 0 1,4,3,0,0 0,0,3,4,1 0,0,0,0,0\n",
    )?;
    let [kept, lost, aside] = answers(&rt, alloc, &plan, 2, &Minimizing)?;
    printed(&rt, alloc, 4, &kept, &lost, &aside, "A 0 0 2 none\n")?;
    let [kept, lost, aside] = answers(&rt, alloc, &Plan::make(), 2, &Forecasting)?;
    printed(
        &rt,
        alloc,
        0,
        &kept,
        &lost,
        &aside,
        "A 0 1073741824-1073741824 0-0 0-0\n",
    )
}

// A value by itself, of whatever scale.
fn put_alone(
    rt: &impl Abort,
    alloc: Global,
    value: &dyn Printed,
    parts: usize,
    text: &str,
) -> Result<(), Fail> {
    let mut out = String::new(alloc);
    value.put(parts, &mut out)?;
    assert_eq!(rt; out.as_str(), text);
    Ok(())
}

#[test]
fn values_put(rt: HostRuntime) -> Result<(), Fail> {
    let alloc = rt.alloc();
    put_alone(&rt, alloc, &Count::from(8), 4, "8")?;
    put_alone(&rt, alloc, &Tallying.down(0), 4, "0,1,0,0,0")?;
    put_alone(&rt, alloc, &Fewest::from(2), 4, "2")?;
    put_alone(&rt, alloc, &Fewest::zero(), 4, "none")?;
    put_alone(&rt, alloc, &Ends { low: 0, high: 3 }, 4, "0-3")
}
