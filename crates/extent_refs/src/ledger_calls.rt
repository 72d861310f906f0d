// Document 01's books: one change posted.
ghost use Rattle.extent_refs.specs.Posts.{PostKept};

#[unsafe(no_mangle)]
pub extern "C" fn ledger_post(
    nodesize: u32,
    sheet: &[u8],
    change: u8,
    extent: u64,
    a: u64,
    b: u64,
    c: u64,
    amount: u32,
    out: &mut [u8],
    len: &mut u64,
) -> u32
    ensures { PostKept sheet.now (record { nodesize = nodesize; number = change; extent = extent; a = a; b = b; c = c; amount = amount; old = out.old; new = out.new; code = result; size = len.new }) }
{
    let posting = crate::change_of(change, extent, a, b, c, amount);
    let answer = ledger::post(sheet, nodesize, posting, out);
    crate::put_edited(answer, len)
}
