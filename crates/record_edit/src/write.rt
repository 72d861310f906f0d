// Question 17 where it is asked, question 21, and then the bytes from left to right, once.
ghost use Rattle.std.specs.Prelude.{◌≡◌, ◌++◌, ◌+◌, ◌-◌, ◌≤◌, length, take};
ghost use Rattle.fields.specs.Parts.{written};
ghost use Rattle.format.specs.Constants.{item_head, most_data, most_sheet};
ghost use Rattle.format.specs.Questions.{Answered, bind};
ghost use Rattle.format.specs.Items.{item_bytes};
ghost use Rattle.backref.specs.Plans.{edited, plan_answer, EditIn, PlanIn};
ghost use Rattle.record_edit.specs.Records.{data_of, edit_length, SecondIn, nothing, rest_bytes, rest_length, sheet_length, edited_sheet, held_edit};

use super::{RecordAt, SecondEdit};
use backref::{BodyEdit, Plan};
use format::{Edited, ITEM_HEAD, Key, MOST_DATA, Refusal};

// The planned body goes to `out` at `at`. Returns the position past it.
fn append_edit(body: &[u8], edit: BodyEdit, out: &mut [u8], at: usize) -> usize
    requires edit_in { EditIn edit body.now }
    requires body_in_bounds { at + edit_length edit (length body.now) ≤ length out.old }
    ensures { (result ≡ at + edit_length edit (length body.now)) × (out.new ≡ written at (edited edit body.now) out.old) }
{
    let new = &edit.new[0..edit.size];
    backref::put_edit(body, edit.from, edit.to, new, edit.total, out, at)
}

// All up to the end of the record, with its planned body.
fn append_record(
    sheet: &[u8],
    start: usize,
    body: &[u8],
    key: Key,
    edit: BodyEdit,
    out: &mut [u8],
) -> usize
    requires edit_in { EditIn edit body.now }
    requires start_in_bounds { (start ≤ length sheet.now) × (edit_length edit (length body.now) ≤ most_data) × (start + item_head + edit_length edit (length body.now) ≤ length out.old) × (length sheet.now ≤ most_sheet) }
    ensures { (result ≡ start + item_head + edit_length edit (length body.now)) × (out.new ≡ written 0 (take start sheet.now ++ item_bytes (record { key = key; bytes = edited edit body.now })) out.old) }
{
    let size = backref::edit_length(edit, body.len());
    let head = item_list::append(sheet, 0, start, out, 0);
    let inside = item_list::append_head(key, size, out, head);
    append_edit(body, edit, out, inside)
}

// A list, where a record stands in it, and the second edit behind that record.
#[derive(Clone, Copy)]
struct Rewrite<'a> {
    sheet: &'a [u8],
    target: RecordAt,
    second: SecondEdit,
    ghost behind: { SecondIn second target.end sheet.now },
    ghost whole: { (target.start + item_head ≤ target.end) × (length sheet.now ≤ most_sheet) },
}

impl<'a> Rewrite<'a> {
    // All from the end of the record, with the second edit. Where the record alone changes, what follows it is one piece.
    fn append_rest(self, out: &mut [u8], at: usize)
        requires { at + rest_length self.second self.target.end (length self.sheet.now) ≤ length out.old }
        ensures { out.new ≡ written at (rest_bytes self.entry.second self.entry.target.end self.entry.sheet.now) out.old }
    {
        let sheet = self.sheet;
        let second = self.second;
        let one = item_list::append(sheet, self.target.end, second.from, out, at);
        if second.size == 0 && second.from == sheet.len() {
            return;
        }
        let two = item_list::append(&second.new, 0, second.size, out, one);
        item_list::append(sheet, second.to, sheet.len(), out, two);
    }

    fn write_record(self, edit: BodyEdit, out: &mut [u8])
        requires edit_in { EditIn edit (data_of self.sheet.now self.target.start self.target.end) }
        requires in_bounds { (edit_length edit (self.target.end - (self.target.start + item_head)) ≤ most_data) × (sheet_length self.target edit self.second (length self.sheet.now) ≤ length out.old) }
        ensures { out.new ≡ written 0 (edited_sheet self.entry.sheet.now self.entry.target self.entry.second (edited edit (data_of self.entry.sheet.now self.entry.target.start self.entry.target.end))) out.old }
    {
        let target = self.target;
        let body = &self.sheet[target.start + ITEM_HEAD..target.end];
        let at = append_record(self.sheet, target.start, body, target.key, edit, out);
        self.append_rest(out, at);
    }

    // Questions 17 and 21, then the writing.
    fn write_held(
        self,
        edit: BodyEdit,
        limit: usize,
        count: usize,
        out: &mut [u8],
    ) -> Result<Edited, Refusal>
        requires { EditIn edit (data_of self.sheet.now self.target.start self.target.end) }
        ensures { Answered (held_edit (length out.old) count limit (edited_sheet self.entry.sheet.now self.entry.target self.entry.second) (edited edit (data_of self.entry.sheet.now self.entry.target.start self.entry.target.end))) result out.old out.new }
    {
        let target = self.target;
        let second = self.second;
        let size = backref::edit_length(edit, target.end - (target.start + ITEM_HEAD));
        if limit < size {
            return Err(Refusal::INLINE_LIMIT);
        }
        if MOST_DATA < size {
            return Err(Refusal::NO_ROOM);
        }
        let rest = second.from - target.end + second.size + (self.sheet.len() - second.to);
        let long = target.start + ITEM_HEAD + size + rest;
        if !item_list::room_for(out.len(), long, count) {
            return Err(Refusal::NO_ROOM);
        }
        self.write_record(edit, out);
        Ok(Edited::Written(long))
    }
}

// The list with a planned body in its record and the second edit behind it, into `out`. `limit` is asked by question 17, and
// `count` is the number of items that this makes.
#[tactic(auto, unfolding(backref::specs::Plans::plan_answer, backref::specs::Plans::PlanIn, format::specs::Questions::bind, format::specs::Questions::lent, format::specs::Questions::edited_of))]
pub fn edit_record(
    sheet: &[u8],
    target: RecordAt,
    plan: Result<Plan, Refusal>,
    second: SecondEdit,
    limit: usize,
    count: usize,
    out: &mut [u8],
) -> Result<Edited, Refusal>
    requires plan_in { PlanIn plan (data_of sheet.now target.start target.end) }
    requires second_in { SecondIn second target.end sheet.now }
    requires item_head_bound { (target.start + item_head ≤ target.end) × (length sheet.now ≤ most_sheet) }
    ensures { Answered (bind (plan_answer plan (data_of sheet.now target.start target.end)) (held_edit (length out.old) count limit (edited_sheet sheet.now target second))) result out.old out.new }
{
    match plan? {
        Plan::Edit(edit) => {
            let rewrite = Rewrite {
                sheet,
                target,
                second,
            };
            rewrite.write_held(edit, limit, count, out)
        }
        Plan::Absent => Ok(Edited::Absent),
        Plan::Remove => Ok(Edited::Remove),
    }
}

// The record alone changes.
pub fn put_record(
    sheet: &[u8],
    target: RecordAt,
    plan: Result<Plan, Refusal>,
    limit: usize,
    out: &mut [u8],
) -> Result<Edited, Refusal>
    requires plan_in { PlanIn plan (data_of sheet.now target.start target.end) }
    requires item_head_bound { (target.start + item_head ≤ target.end) × (target.end ≤ length sheet.now) × (length sheet.now ≤ most_sheet) }
    ensures { Answered (bind (plan_answer plan (data_of sheet.now target.start target.end)) (held_edit (length out.old) target.item_count limit (edited_sheet sheet.now target (nothing (length sheet.now))))) result out.old out.new }
{
    let n = sheet.len();
    let second = SecondEdit {
        from: n,
        to: n,
        new: [0; 4],
        size: 0,
    };
    edit_record(sheet, target, plan, second, limit, target.item_count, out)
}
