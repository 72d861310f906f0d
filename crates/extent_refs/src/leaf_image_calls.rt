// Leaves as they stand on the card.
ghost use Rattle.std.specs.Prelude.{length};
ghost use Rattle.format.specs.Items.{held_sheet};
ghost use Rattle.format.specs.LeafImage.{read_image, write_image, held_image};
ghost use Rattle.extent_refs.specs.Exports.{Coded};

#[unsafe(no_mangle)]
pub extern "C" fn leaf_image_read(nodesize: u32, image: &[u8], out: &mut [u8], len: &mut u64) -> u32
    ensures { Coded (held_sheet (length out.old) (read_image nodesize image.now)) result len.new out.old out.new }
{
    let answer = leaf_image::read(nodesize, image, out);
    crate::put_edited(answer, len)
}

#[unsafe(no_mangle)]
pub extern "C" fn leaf_image_write(
    nodesize: u32,
    header: &[u8],
    sheet: &[u8],
    out: &mut [u8],
    len: &mut u64,
) -> u32
    ensures { Coded (held_image (length out.old) (write_image nodesize header.now sheet.now)) result len.new out.old out.new }
{
    let answer = leaf_image::write(nodesize, header, sheet, out);
    crate::put_edited(answer, len)
}
