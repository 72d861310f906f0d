// A reference dropped at its own item: the record with a lower total, and behind it the item gone, or with another count.
ghost use Rattle.std.specs.Prelude.{◌+◌, ◌-◌, ◌≤◌, length};
ghost use Rattle.fields.specs.Numbers.{le};
ghost use Rattle.fields.specs.Parts.{part};
ghost use Rattle.format.specs.Constants.{item_head, most_sheet};
ghost use Rattle.format.specs.Questions.{Answered, bind, remove};
ghost use Rattle.format.specs.Bodies.{lowered_by_part, on_total, lower_total, drop_keyed_data_ref};
ghost use Rattle.format.specs.Ledger.{less_item};
ghost use Rattle.backref.specs.Plans.{PlanIn};
ghost use Rattle.record_edit.specs.Records.{data_of};
ghost use Rattle.transaction.specs.Drops.{gone, new_count, held_plan, held_at, lowered_total, item_drop, item_left, CountFits};

use backref::{Plan, TotalChange};
use format::{DataRef, Edited, ITEM_HEAD, Refusal};
use inline_refs::RefName;
use record_edit::{RecordAt, SecondEdit};

// A record of a list, and the item behind it, from `from` up to `to`, that a reference to its extent has for itself.
#[derive(Clone, Copy)]
pub struct OwnItem<'a> {
    pub sheet: &'a [u8],
    pub target: RecordAt,
    pub from: usize,
    pub to: usize,
    ghost apart: { (target.start + item_head ≤ target.end) × (target.end ≤ from) × (from + item_head ≤ to) × (to ≤ length sheet.now) × (length sheet.now ≤ most_sheet) },
}

impl<'a> OwnItem<'a> {
    // The record changes, and with it goes the item.
    fn put_without(self, plan: Result<Plan, Refusal>, out: &mut [u8]) -> Result<Edited, Refusal>
        requires { PlanIn plan (data_of self.sheet.now self.target.start self.target.end) }
        ensures { Answered (held_plan (length out.old) (self.entry.target.item_count - 1) self.entry.sheet.now self.entry.target plan (gone self.entry.from self.entry.to)) result out.old out.new }
    {
        let behind = SecondEdit {
            from: self.from,
            to: self.to,
            new: [0; 4],
            size: 0,
        };
        let count = self.target.item_count.saturating_sub(1);
        record_edit::edit_record(
            self.sheet,
            self.target,
            plan,
            behind,
            crate::NO_LIMIT,
            count,
            out,
        )
    }

    // The record changes, and with it the item gets another count in its last four bytes.
    fn put_count(
        self,
        plan: Result<Plan, Refusal>,
        count: u32,
        out: &mut [u8],
    ) -> Result<Edited, Refusal>
        requires { PlanIn plan (data_of self.sheet.now self.target.start self.target.end) }
        ensures { Answered (held_plan (length out.old) self.entry.target.item_count self.entry.sheet.now self.entry.target plan (new_count self.entry.to count)) result out.old out.new }
    {
        let behind = SecondEdit {
            from: self.to - 4,
            to: self.to,
            new: count.to_le_bytes(),
            size: 4,
        };
        record_edit::edit_record(
            self.sheet,
            self.target,
            plan,
            behind,
            crate::NO_LIMIT,
            self.target.item_count,
            out,
        )
    }

    // One off the record's total; the block reference's item goes.
    #[tactic(auto, unfolding(crate::specs::Drops::held_at))]
    fn drop_block(self, out: &mut [u8]) -> Result<Edited, Refusal>
        ensures { Answered (bind (lower_total (data_of self.entry.sheet.now self.entry.target.start self.entry.target.end)) (held_at (length out.old) self.entry.sheet.now self.entry.target self.entry.from self.entry.to 0 remove)) result out.old out.new }
    {
        let body = &self.sheet[self.target.start + ITEM_HEAD..self.target.end];
        let lowered = backref::plan_total(body, TotalChange::LowerByOne);
        self.put_without(lowered, out)
    }

    // The amount off the record's total, then off the shared reference's item, which counts `standing`: with its last count it goes.
    #[tactic(auto, unfolding(crate::specs::Drops::held_at, format::specs::Ledger::less_item))]
    fn drop_part(self, standing: u32, amount: u32, out: &mut [u8]) -> Result<Edited, Refusal>
        ensures { Answered (bind (on_total (data_of self.entry.sheet.now self.entry.target.start self.entry.target.end) (lowered_by_part amount standing)) (held_at (length out.old) self.entry.sheet.now self.entry.target self.entry.from self.entry.to (standing - amount) (less_item standing amount))) result out.old out.new }
    {
        let body = &self.sheet[self.target.start + ITEM_HEAD..self.target.end];
        let reduced = backref::plan_total_part(body, amount, standing);
        if amount < standing {
            return self.put_count(reduced, standing - amount, out);
        }
        self.put_without(reduced, out)
    }

    // One off the record's total, then one count off the data reference's item: at count 1 the item goes.
    #[tactic(auto, unfolding(crate::specs::Drops::held_at, backref::specs::Plans::plan_answer, format::specs::Questions::bind))]
    fn drop_count(self, name: DataRef, out: &mut [u8]) -> Result<Edited, Refusal>
        ensures { Answered (bind (lower_total (data_of self.entry.sheet.now self.entry.target.start self.entry.target.end)) (held_at (length out.old) self.entry.sheet.now self.entry.target self.entry.from self.entry.to (le (part (self.entry.to - 4) 4 self.entry.sheet.now) - 1) (drop_keyed_data_ref (data_of self.entry.sheet.now self.entry.from self.entry.to) name))) result out.old out.new }
    {
        let body = &self.sheet[self.target.start + ITEM_HEAD..self.target.end];
        let rest = backref::plan_total(body, TotalChange::LowerByOne);
        rest?;
        match backref::plan_drop_keyed(&self.sheet[self.from + ITEM_HEAD..self.to], name)? {
            Plan::Absent => Ok(Edited::Absent),
            Plan::Remove => self.put_without(rest, out),
            Plan::Edit(_) => {
                let count = fields::get_u32_le(self.sheet, self.to - 4);
                self.put_count(rest, count - 1, out)
            }
        }
    }

    // The drop at the item.
    #[tactic(auto, unfolding(crate::specs::Drops::lowered_total, crate::specs::Drops::item_left, crate::specs::Drops::item_drop))]
    pub fn drop_ref(self, name: RefName, amount: u32, out: &mut [u8]) -> Result<Edited, Refusal>
        requires { CountFits name (data_of self.sheet.now self.from self.to) }
        ensures { Answered (bind (lowered_total name amount (data_of self.entry.sheet.now self.entry.from self.entry.to) (data_of self.entry.sheet.now self.entry.target.start self.entry.target.end)) (held_at (length out.old) self.entry.sheet.now self.entry.target self.entry.from self.entry.to (item_left name amount (le (part (self.entry.to - 4) 4 self.entry.sheet.now))) (item_drop name amount (data_of self.entry.sheet.now self.entry.from self.entry.to)))) result out.old out.new }
    {
        match name {
            RefName::Block(_) => self.drop_block(out),
            RefName::Data(data) => self.drop_count(data, out),
            RefName::SharedBlock(_) => self.drop_part(1, amount, out),
            RefName::SharedData(_) => {
                let standing = fields::get_u32_le(self.sheet, self.to - 4);
                self.drop_part(standing, amount, out)
            }
        }
    }
}
