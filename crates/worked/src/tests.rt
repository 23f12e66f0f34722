// What the library answers on worked plans, at its limits and on records.
use crate::listing::listed;
use crate::trying::{answers, mixed, singles};
use evaluation::evaluate;
use plans::Plan;
use records::Record;
use refusals::Refusal;
use replay::respond;
use rules::Linear;
use scales::{Count, Counting, Scale};
use std::alloc::Global;
use std::process::Abort;
use std::test::Fail;

// The numbers of patterns that linear k keeps, loses and sets aside.
fn counted(rt: &impl Abort, alloc: Global, plan: &Plan, k: usize) -> Result<[u64; 3], Fail> {
    let counts = answers(rt, alloc, plan, k, &Counting)?;
    Ok(counts.map(|count| count.number))
}

#[test]
fn worked_counts(rt: HostRuntime) -> Result<(), Fail> {
    let mut plan = Plan::make();
    assert_eq!(rt; counted(&rt, rt.alloc(), &plan, 2)?, [1, 0, 0]);
    plan.add(&[5, 6])?;
    plan.add(&[7, 8])?;
    assert_eq!(rt; counted(&rt, rt.alloc(), &plan, 2)?, [7, 9, 0]);
    plan.drop_last()?;
    assert_eq!(rt; counted(&rt, rt.alloc(), &plan, 1)?, [1, 3, 0]);
    Ok(())
}

// Lists of n outcomes without two misses in a row number the Fibonacci number n + 2.
#[test]
fn fibonacci(rt: HostRuntime) -> Result<(), Fail> {
    let plan = singles(63)?;
    assert_eq!(rt;
        counted(&rt, rt.alloc(), &plan, 2)?,
        [17_167_680_177_565, 9_223_354_869_174_598_243, 0]
    );
    Ok(())
}

#[test]
fn all_patterns(rt: HostRuntime) -> Result<(), Fail> {
    let plan = mixed(&[7], &[1, 2, 3], &[0, 1 << 30])?;
    for k in 1..5 {
        let rule = Linear::new(k)?;
        assert_eq!(rt;
            counted(&rt, rt.alloc(), &plan, k)?,
            listed(rt.alloc(), &plan, &rule, 64)?
        );
    }
    Ok(())
}

#[test]
fn limits(rt: HostRuntime) -> Result<(), Fail> {
    assert_eq!(rt; Linear::new(0).is_ok(), false);
    assert_eq!(rt; Linear::new(63).is_ok(), true);
    assert_eq!(rt; Linear::new(64).is_ok(), false);
    let mut plan = singles(64)?;
    let rule = Linear::new(2)?;
    let mut totals = [Count::zero(); 3];
    let mut next = [Count::zero(); 3];
    let mut answer = [Count::zero(); 3];
    assert_eq!(rt;
        evaluate(&plan, &rule, &Counting, &mut totals, &mut next, &mut answer),
        Err(Refusal::TooManyParts)
    );
    plan.drop_last()?;
    assert_eq!(rt;
        evaluate(&plan, &rule, &Counting, &mut totals, &mut next, &mut answer),
        Ok(3)
    );
    assert_eq!(rt;
        evaluate(
            &plan,
            &rule,
            &Counting,
            &mut totals,
            &mut next[1..],
            &mut answer,
        ),
        Err(Refusal::ShortList)
    );
    Ok(())
}

#[test]
fn full_plan(rt: HostRuntime) -> Result<(), Fail> {
    let mut plan = Plan::make();
    for _ in 0..64 {
        plan.add(&[1 << 30; 8])?;
    }
    assert_eq!(rt; plan.add(&[0]), Err(Refusal::FullPlan));
    assert_eq!(rt; plan.add(&[(1 << 30) + 1]), Err(Refusal::OverOne));
    assert_eq!(rt; plan.add(&[0; 9]), Err(Refusal::OddPass));
    assert_eq!(rt; plan.parts(), 512);
    Ok(())
}

// The text that an input is answered with.
fn told(rt: &impl Abort, alloc: Global, input: &[u8], text: &str) -> Result<(), Fail> {
    let answer = respond(alloc, input)?;
    assert_eq!(rt; answer.as_str(), text);
    Ok(())
}

#[test]
fn records_answered(rt: HostRuntime) -> Result<(), Fail> {
    let alloc = rt.alloc();
    told(&rt, alloc, b"", "E 0 0\n")?;
    told(&rt, alloc, b"\x11\x40\x00\x00\x00", "E 1 1\n")?;
    told(
        &rt,
        alloc,
        b"\x12\x00\x00\x00\x01\x00\x00\x00\x02\x31\x01\x01\x02",
        "A 9 1 3 0\nE 2 1\n",
    )?;
    told(
        &rt,
        alloc,
        b"\x11\x00\x00\x00\x00\x22\x00\x00\x00\x01\x31\x01\x01\x02",
        "A 10 1 0 0\nE 1 1\n",
    )?;
    told(
        &rt,
        alloc,
        b"\x11\x00\x00\x00\x00\x11\x00\x00\x00\x00\x22\x00\x01\x00\x00\x31\x01\x02\x02",
        "A 15 1 1 0\nE 2 2\n",
    )
}

#[test]
fn records_declined(rt: HostRuntime) -> Result<(), Fail> {
    let alloc = rt.alloc();
    told(&rt, alloc, b"\x11\x40\x00\x00\x01", "R 0 2\nE 0 0\n")?;
    told(
        &rt,
        alloc,
        b"\x22\x00\x00\x00\x01\x23",
        "R 0 4\nR 5 6\nE 0 0\n",
    )?;
    told(
        &rt,
        alloc,
        b"\x11\x00\x00\x00\x00\x22\x00\x00\x00\x00\x22\x00\x00\x00\x01",
        "R 10 5\nE 1 1\n",
    )?;
    told(
        &rt,
        alloc,
        b"\x31\x01\x00\x02\x31\x01\x40\x02",
        "R 0 7\nR 4 7\nE 0 0\n",
    )?;
    told(
        &rt,
        alloc,
        b"\x31\x02\x00\x02\x31\x01\x00\x01\x22\x00\x00\x00\x02",
        "R 0 13\nR 4 13\nR 8 13\nE 0 0\n",
    )
}

#[test]
fn reading_stops(rt: HostRuntime) -> Result<(), Fail> {
    let alloc = rt.alloc();
    told(&rt, alloc, b"\x21\x23", "R 0 11\nE 0 0\n")?;
    told(&rt, alloc, b"\x23\x19\x23", "R 0 6\nR 1 11\nE 0 0\n")?;
    told(&rt, alloc, b"\x11\x00\x00\x00", "R 0 12\nE 0 0\n")
}

// A record that no reader made may have any body.
#[test]
fn any_body(rt: HostRuntime) -> Result<(), Fail> {
    let body = b"\x01\x02\x03".as_slice();
    assert_eq!(rt; Record::Add { place: 0, body }.body(), body);
    assert_eq!(rt; Record::Settle { place: 0, body }.body(), body);
    assert_eq!(rt; Record::Drop { place: 0, body }.body(), body);
    assert_eq!(rt; Record::Evaluate { place: 0, body }.body(), body);
    Ok(())
}
