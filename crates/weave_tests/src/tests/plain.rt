// The weave as a plain slow program: all vertices are gone through, and legality is that of all pairs and all points.
use journal_defs::{Edit, Lists, Why, after, first_illegal, is_touched, is_within, opening};
use plane::{Pair, Points};
use std::alloc::Global;
use std::test::Fail;
use weave::{Step, StepAnswer};

#[derive(Drop)]
pub struct Plain {
    owners: Vec<Option<u32>>,
    pub state: Lists,
    pub commits: u64,
}

impl Plain {
    pub fn make(alloc: Global, points: &Points, start: &[Pair]) -> Result<Plain, Fail> {
        let owners = vec![in alloc; None; points.len() as usize + 1]?;
        Ok(Plain {
            owners,
            state: opening(alloc, start)?,
            commits: 0,
        })
    }

    fn owner(&self, place: u32) -> Option<u32> {
        match self.owners.get(place as usize) {
            Some(owner) => *owner,
            None => None,
        }
    }

    fn set_owner(&mut self, place: u32, owner: Option<u32>) {
        if (place as usize) < self.owners.len() {
            self.owners[place as usize] = owner;
        }
    }

    fn take(&mut self, caller: u32, place: u32) -> StepAnswer {
        match self.owner(place) {
            Some(owner) => StepAnswer::Held(owner),
            None => {
                self.set_owner(place, Some(caller));
                StepAnswer::Won
            }
        }
    }

    fn give_back(&mut self, caller: u32, place: u32) -> StepAnswer {
        if self.owner(place) == Some(caller) {
            self.set_owner(place, None);
            StepAnswer::Returned
        } else {
            StepAnswer::NotOwned(place)
        }
    }

    fn lacks(&self, caller: u32, edits: &[Edit], v: u32) -> bool {
        self.owner(v) != Some(caller) && edits.iter().any(|e| is_touched(e, v))
    }

    // Why nothing is shown: the reason of an illegal edit isn't told by the plain program.
    fn append(
        &mut self,
        alloc: Global,
        points: &Points,
        caller: u32,
        edits: &[Edit],
    ) -> Result<StepAnswer, Fail> {
        let journal = points.len();
        if let Some(v) = (0..journal).find(|v| self.lacks(caller, edits, *v)) {
            return Ok(StepAnswer::NotOwned(v));
        }
        if self.owner(journal) != Some(caller) {
            return Ok(StepAnswer::NotOwned(journal));
        }
        if edits.len() > 8 || !is_within(points, &self.state) {
            return Err(Fail::from("an end beyond the points"));
        }
        if let Some(at) = first_illegal(alloc, points, &self.state, edits)? {
            let why = Why::NotThere;
            return Ok(StepAnswer::Illegal { at, why });
        }
        for e in edits {
            self.state = after(alloc, *e, &self.state)?;
        }
        self.commits = self.commits.saturating_add(1);
        Ok(StepAnswer::Commit(self.commits))
    }

    pub fn answer(
        &mut self,
        alloc: Global,
        points: &Points,
        step: &Step,
    ) -> Result<StepAnswer, Fail> {
        match step {
            Step::Take { caller, place } => Ok(self.take(*caller, *place)),
            Step::Append { caller, edits } => self.append(alloc, points, *caller, edits.as_slice()),
            Step::Back { caller, place } => Ok(self.give_back(*caller, *place)),
        }
    }
}

/// Whether two answers are the same but for why an edit isn't legal.
pub fn are_alike(a: StepAnswer, b: StepAnswer) -> bool {
    match (a, b) {
        (StepAnswer::Illegal { at: i, why: _ }, StepAnswer::Illegal { at: j, why: _ }) => i == j,
        (a, b) => a == b,
    }
}
