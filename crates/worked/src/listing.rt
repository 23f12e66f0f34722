// All patterns of a small plan, one after the other, each judged and weighed by itself: another way to the same values.
use odds::UNIT;
use plans::{Part, Plan, Standing};
use rules::{Judging, judge};
use std::alloc::{AllocError, Global};

// What the patterns of one verdict come to.
#[derive(Clone, Copy)]
pub(super) struct Tally {
    // How many there are, by how many open parts they have down.
    pub(super) by_missed: [u64; 64],
    // The sum of the products of the open parts' numbers: the forecast where up, what it leaves of U where down.
    pub(super) exact: u128,
}

// The marks of a pattern that are not read yet, and what those before came to.
#[derive(Clone, Copy)]
struct Marks {
    left: u32,
    down: usize,
    product: u128,
}

impl Marks {
    // Whether the part is marked up; none where the mark is not allowed, as a settled part is as it is settled.
    fn read(&mut self, part: &Part) -> Option<bool> {
        let up = self.left % 2 == 1;
        self.left = self.left / 2;
        match part.standing {
            Standing::Open => {
                self.weigh(u64::from(part.forecast), up);
                Some(up)
            }
            Standing::Up => up.then_some(true),
            Standing::Down => (!up).then_some(false),
        }
    }

    fn weigh(&mut self, forecast: u64, up: bool) {
        let number = if up {
            forecast
        } else {
            UNIT.saturating_sub(forecast)
        };
        self.product = self.product.saturating_mul(u128::from(number));
        if !up {
            self.down = self.down.saturating_add(1);
        }
    }
}

// Whether the pass is made; none where a mark is not allowed.
fn pass_made(parts: &[Part], marks: &mut Marks) -> Option<bool> {
    let mut made = true;
    for part in parts {
        let up = marks.read(part)?;
        made = made && up;
    }
    Some(made)
}

// Which passes the pattern makes, if it is allowed.
fn outcomes(
    alloc: Global,
    plan: &Plan,
    marks: &mut Marks,
) -> Result<Option<Vec<bool>>, AllocError> {
    let mut list = Vec::new(alloc);
    for pass in plan {
        // No `?`: a pattern that is not allowed is no error, and the one error here is want of memory.
        let Some(made) = pass_made(pass, marks) else {
            return Ok(None);
        };
        list.push(made)?;
    }
    Ok(Some(list))
}

impl Tally {
    fn add(&mut self, marks: &Marks) {
        if let Some(count) = self.by_missed.get_mut(marks.down) {
            *count = count.saturating_add(1);
        }
        self.exact = self.exact.saturating_add(marks.product);
    }

    // How many patterns there are.
    pub(super) fn count(&self) -> u64 {
        self.by_missed
            .iter()
            .fold(0, |count, more| count.saturating_add(*more))
    }

    // The fewest parts that a pattern has down, if there is one.
    pub(super) fn fewest(&self) -> Option<u32> {
        self.by_missed
            .iter()
            .position(|count| *count > 0)
            .map(|down| down as u32)
    }
}

// The first so many patterns of a plan, by their verdicts: kept, lost and aside.
pub(super) fn tallied<R: Judging>(
    alloc: Global,
    plan: &Plan,
    rule: &R,
    patterns: u32,
) -> Result<[Tally; 3], AllocError> {
    let mut verdicts = [Tally {
        by_missed: [0; 64],
        exact: 0,
    }; 3];
    for pattern in 0..patterns {
        let mut marks = Marks {
            left: pattern,
            down: 0,
            product: 1,
        };
        if let Some(list) = outcomes(alloc, plan, &mut marks)? {
            verdicts[judge(rule, &list) as usize].add(&marks);
        }
    }
    Ok(verdicts)
}

// How many of the first so many patterns are kept, lost and aside.
pub(super) fn listed<R: Judging>(
    alloc: Global,
    plan: &Plan,
    rule: &R,
    patterns: u32,
) -> Result<[u64; 3], AllocError> {
    let verdicts = tallied(alloc, plan, rule, patterns)?;
    Ok(verdicts.map(|tally| tally.count()))
}
