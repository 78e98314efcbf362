// The listing of a TypeInfo stream, written whole into a lent buffer.
#![tactic(auto)]

ghost use Rattle.rules.specs.Rows.{type_info_width, room};
ghost use Rattle.names.specs.Lookup.{Lent};
ghost use Rattle.text.specs.Writer.{Wrote};
ghost use Rattle.infolines.specs.Infos.{info_printed};

use listing::Kind;

// Reads a stream into the lent rows, writes its listing from the start of `out` on, as far as there is room, and returns where it ends.
pub fn write_infos(
    stream: &[u8],
    rows: &mut [u32],
    index: &[u32],
    letters: &[u8],
    out: &mut [u8],
) -> usize
    requires { Lent index.now letters.now }
    ensures { Wrote out.old 0 (info_printed stream.now (room type_info_width rows.old)) out.new result }
{
    let a = typeinfo::read_type_info(stream, rows);
    let p = listing::answer_line(out, 0, a);
    if a.number != 0 {
        return p;
    }
    listing::lines(Kind::Info, out, p, stream, rows, a.first, index, letters)
}
