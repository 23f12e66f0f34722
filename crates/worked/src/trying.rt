// Plans to try, and what an evaluation by linear answers on them.
use evaluation::evaluate;
use plans::Plan;
use refusals::Refusal;
use rules::Linear;
use scales::{Scale, Weigher};
use std::alloc::Global;
use std::process::Abort;
use std::test::Fail;

// A plan of passes of one part, which cannot come up.
pub(super) fn singles(passes: usize) -> Result<Plan, Fail> {
    let mut plan = Plan::make();
    for _ in 0..passes {
        plan.add(&[0])?;
    }
    Ok(plan)
}

// A plan of three passes, of one, three and two parts with these forecasts, two of them settled.
pub(super) fn mixed(one: &[u32; 1], three: &[u32; 3], two: &[u32; 2]) -> Result<Plan, Fail> {
    let mut plan = Plan::make();
    plan.add(one)?;
    plan.add(three)?;
    plan.add(two)?;
    plan.settle(1, 2, true)?;
    plan.settle(2, 0, false)?;
    Ok(plan)
}

// What an evaluation by linear k replies, in work lists of so many places.
pub(super) fn evaluated<W: Weigher>(
    alloc: Global,
    plan: &Plan,
    k: usize,
    weigher: &W,
    places: [usize; 2],
    answer: &mut [W::Value],
) -> Result<Result<usize, Refusal>, Fail>
where
    W::Value: Clone,
{
    let rule = Linear::new(k)?;
    let [first, second] = places;
    let mut totals = vec![in alloc; W::Value::zero(); first]?;
    let mut next = vec![in alloc; W::Value::zero(); second]?;
    Ok(evaluate(plan, &rule, weigher, &mut totals, &mut next, answer))
}

// The three answers by linear k.
pub(super) fn answers<W: Weigher>(
    rt: &impl Abort,
    alloc: Global,
    plan: &Plan,
    k: usize,
    weigher: &W,
) -> Result<[W::Value; 3], Fail>
where
    W::Value: Clone,
{
    let mut answer = [W::Value::zero(); 3];
    let reply = evaluated(alloc, plan, k, weigher, [64, 64], &mut answer)?;
    assert_eq!(rt; reply, Ok(k.saturating_add(1)));
    Ok(answer)
}
