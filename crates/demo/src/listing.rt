// The reference lister on the body of a new data extent.
use crate::say;

pub fn show(rt: &impl Print) {
    say::text(
        rt,
        b"An extent is a stretch of a card that holds data or a block of a tree. Its record says how often it\n\
          is used, its total; each user has a reference, in the record or in an item of its own. The lister\n\
          prints a new extent's record so: where its references start, its total, its flags and how many\n\
          references it has; then each reference by its type, tree, file, offset and count.\n\n",
    );
    let mut body = [0u8; 53];
    let _ = extent_write::data_extent_body(7, 5, 257, 0, &mut body);
    let mut input = [168u8; 54];
    fields::copy_at(&body, 0, 53, &mut input, 1);
    let mut text = [0u8; 327775];
    let n = lister_text::list_in_full(&input, &mut text);
    say::indented(rt, &text[..n]);
    say::text(rt, b"\n");
}
