ghost use Rattle.std.specs.Prelude.{◌≡◌, None, option_copied};
ghost use Rattle.ak_field.specs.Reading.{GivesAs, GivesExactly, IsThere, Adds, items_at, last_of};
ghost use Rattle.ak_field.specs.Lists.{is_later, report_at, report_count_at, reports_at};

use crate::fault::WireFault;
use crate::fields::Fields;
use ak_clock::BOUND;
use ak_shard_id::Report;
use std::alloc::Global;

const MOST_REPORTS: u16 = 1000;

impl<'a> Fields<'a> {
    /// What a node reports of its shards: how many reports there are, up to 1000, and then each: its shard, which is above the
    /// one before it, its number, from 1 to 4611686018427387904, and whether it is hosted.
    #[tactic(auto, using(crate::proofs::Steps::fails_exactly), unfolding(crate::specs::Lists::reports_at))]
    pub fn reports(&mut self, alloc: Global) -> Result<Vec<Report>, WireFault>
        ensures read { GivesAs (λ reports. reports.items) result self.new (reports_at self.old) }
        ensures memory { IsThere result (report_count_at self.old) }
    {
        let many = self.report_count()?;
        self.some_reports(alloc, many)
    }

    #[tactic(auto, unfolding(crate::specs::Lists::report_count_at))]
    fn report_count(&mut self) -> Result<u16, WireFault>
        ensures { GivesExactly result self.new (report_count_at self.old) }
    {
        let many = self.two_bytes()?;
        if many > MOST_REPORTS {
            return Err(WireFault::Count);
        }
        Ok(many)
    }

    fn some_reports(&mut self, alloc: Global, many: u16) -> Result<Vec<Report>, WireFault>
        ensures { GivesAs (λ reports. reports.items) result self.new (items_at report_at None many self.old) }
    {
        let mut reports = Vec::new(alloc);
        'reports: for _ in 0..many {
            self.add_report(&mut reports)?;
        }
        Ok(reports)
    }

    fn add_report(&mut self, reports: &mut Vec<Report>) -> Result<(), WireFault>
        ensures { Adds result reports.old.items reports.new.items self.new (report_at (last_of reports.old.items) self.old) }
    {
        let report = self.report(reports.last())?;
        reports.push(report)?;
        Ok(())
    }

    // The report after the last one.
    #[tactic(auto, unfolding(crate::specs::Lists::report_at))]
    fn report(&mut self, last: Option<&Report>) -> Result<Report, WireFault>
        ensures { GivesExactly result self.new (report_at (option_copied last.entry) self.old) }
    {
        let shard = self.shard()?;
        if !is_later(last, shard) {
            return Err(WireFault::Order);
        }
        let number = self.number(1, BOUND)?;
        let hosted = self.flag()?;
        Ok(Report {
            shard,
            number,
            hosted,
        })
    }
}

fn is_later(last: Option<&Report>, shard: u32) -> bool
    ensures { result ≡ is_later (option_copied last.entry) shard }
{
    match last {
        Some(last) => last.shard < shard,
        None => true,
    }
}
