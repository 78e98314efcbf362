// The archive's functions: each hands its arguments on to the function of `oskuramos` with the same name, and says the same.
// Kept: C needs each name exported by a function of its own, and no crate stands on a static library (docs/DECISIONS.md).
#![tactic(auto)]

ghost use Rattle.std.specs.Prelude.{◌≡◌};
ghost use Rattle.rules.specs.Blob.{exit, exit2000, exit_later};
ghost use Rattle.rules.specs.CodeTable.{well_formed_lem};
ghost use Rattle.rules.specs.Differences.{differences_exit};
ghost use Rattle.rules.specs.Join.{join_exit};
ghost use Rattle.rules.specs.NamePart.{name_part};
ghost use Rattle.rules.specs.NameTables.{text_names, number_names, bytes_names, control_type_names};
ghost use Rattle.rules.specs.Names.{names_for, name_exit};
ghost use Rattle.rules.specs.Rewrite.{rewrite_exit};
ghost use Rattle.rules.specs.Pairing.{pair_exit};
ghost use Rattle.rules.specs.Csv.{csv_exit, fields_exit};
ghost use Rattle.rules.specs.Panel.{panel_exit};
ghost use Rattle.rules.specs.Room.{room2000, room_later_lem, room_for, type_info_room_lem};
ghost use Rattle.rules.specs.Texts.{guid_exit, label_exit};
ghost use Rattle.rules.specs.Totals.{totals_exit};
ghost use Rattle.rules.specs.TypeInfo.{type_info_exit};
ghost use Rattle.rules.specs.Utf16.{is_utf16_lem};
ghost use Rattle.rules.specs.Value.{entry_value_lem, stored_value_lem, value_as_lem};
ghost use Rattle.totals.specs.Exit.{exited};
ghost use Rattle.oskuramos.specs.Handed.{handed_answer, taken_answer, handed_value, handed_part, handed_room};

use oskuramos::{Answer, Part, Room, Value};
use rules::Totals;

// ---- streams
#[unsafe(no_mangle)]
pub extern "C" fn oskuramos_read_blob(
    table: &[u8],
    stream: &[u8],
    controls: &mut [u32],
    properties: &mut [u32],
) -> Answer
    ensures value { result ≡ handed_answer (exit table.now stream.now controls.old properties.old).answer }
    ensures controls_after { controls.new ≡ (exit table.now stream.now controls.old properties.old).controls }
    ensures properties_after { properties.new ≡ (exit table.now stream.now controls.old properties.old).properties }
{
    oskuramos::oskuramos_read_blob(table, stream, controls, properties)
}

// For whoever knows which layout a Blob has: a wrong first byte is noticed.
#[unsafe(no_mangle)]
pub extern "C" fn oskuramos_read_2000(
    table: &[u8],
    stream: &[u8],
    controls: &mut [u32],
    properties: &mut [u32],
) -> Answer
    ensures value { result ≡ handed_answer (exit2000 table.now stream.now controls.old properties.old).answer }
    ensures controls_after { controls.new ≡ (exit2000 table.now stream.now controls.old properties.old).controls }
    ensures properties_after { properties.new ≡ (exit2000 table.now stream.now controls.old properties.old).properties }
{
    oskuramos::oskuramos_read_2000(table, stream, controls, properties)
}

#[unsafe(no_mangle)]
pub extern "C" fn oskuramos_read_later(
    layout: u32,
    stream: &[u8],
    controls: &mut [u32],
    properties: &mut [u32],
) -> Answer
    ensures value { result ≡ handed_answer (exit_later layout stream.now controls.old properties.old).answer }
    ensures controls_after { controls.new ≡ (exit_later layout stream.now controls.old properties.old).controls }
    ensures properties_after { properties.new ≡ (exit_later layout stream.now controls.old properties.old).properties }
{
    oskuramos::oskuramos_read_later(layout, stream, controls, properties)
}

// Reads a Blob and judges it by the rules of panels.
#[unsafe(no_mangle)]
pub extern "C" fn oskuramos_check_panel(
    table: &[u8],
    stream: &[u8],
    controls: &mut [u32],
    properties: &mut [u32],
) -> Answer
    ensures value { result ≡ handed_answer (panel_exit table.now stream.now controls.old properties.old).answer }
    ensures controls_after { controls.new ≡ (panel_exit table.now stream.now controls.old properties.old).controls }
    ensures properties_after { properties.new ≡ (panel_exit table.now stream.now controls.old properties.old).properties }
{
    oskuramos::oskuramos_check_panel(table, stream, controls, properties)
}

#[unsafe(no_mangle)]
pub extern "C" fn oskuramos_read_type_info(stream: &[u8], rows: &mut [u32]) -> Answer
    ensures value { result ≡ handed_answer (type_info_exit stream.now rows.old).answer }
    ensures rows_after { rows.new ≡ (type_info_exit stream.now rows.old).rows }
{
    oskuramos::oskuramos_read_type_info(stream, rows)
}

// ---- controls paired with TypeInfo
#[unsafe(no_mangle)]
pub extern "C" fn oskuramos_pair(
    stream: &[u8],
    controls: &mut [u32],
    control_count: u32,
    info_stream: &[u8],
    infos: &[u32],
    info_count: u32,
) -> Answer
    ensures value { result ≡ handed_answer (pair_exit stream.now controls.old control_count info_stream.now infos.now info_count).answer }
    ensures controls_after { controls.new ≡ (pair_exit stream.now controls.old control_count info_stream.now infos.now info_count).controls }
{
    oskuramos::oskuramos_pair(
        stream,
        controls,
        control_count,
        info_stream,
        infos,
        info_count,
    )
}

// ---- comma-separated text
#[unsafe(no_mangle)]
pub extern "C" fn oskuramos_write_csv(
    table: &[u8],
    stream: &[u8],
    controls: &mut [u32],
    properties: &mut [u32],
    out: &mut [u8],
) -> Answer
    ensures value { result ≡ handed_answer (csv_exit table.now stream.now controls.old properties.old out.old).answer }
    ensures controls_after { controls.new ≡ (csv_exit table.now stream.now controls.old properties.old out.old).controls }
    ensures properties_after { properties.new ≡ (csv_exit table.now stream.now controls.old properties.old out.old).properties }
    ensures out_after { out.new ≡ (csv_exit table.now stream.now controls.old properties.old out.old).out }
{
    oskuramos::oskuramos_write_csv(table, stream, controls, properties, out)
}

#[unsafe(no_mangle)]
pub extern "C" fn oskuramos_read_csv(text: &[u8], fields: &mut [u32], out: &mut [u8]) -> Answer
    ensures value { result ≡ handed_answer (fields_exit text.now fields.old out.old).answer }
    ensures fields_after { fields.new ≡ (fields_exit text.now fields.old out.old).rows }
    ensures out_after { out.new ≡ (fields_exit text.now fields.old out.old).out }
{
    oskuramos::oskuramos_read_csv(text, fields, out)
}

// ---- running totals over many streams
// The record is lent, and altered where it lies.
#[unsafe(no_mangle)]
pub extern "C" fn oskuramos_count_blob(
    totals: &mut Totals,
    table: &[u8],
    stream: &[u8],
    control_room: u32,
    property_room: u32,
) -> Answer
    ensures { exited (taken_answer result) totals.new ≡ totals_exit totals.old table.now stream.now control_room property_room }
{
    oskuramos::oskuramos_count_blob(totals, table, stream, control_room, property_room)
}

// ---- code tables
#[unsafe(no_mangle)]
pub extern "C" fn oskuramos_well_formed(table: &[u8]) -> bool
    ensures { result ≡ well_formed_lem table.now }
{
    oskuramos::oskuramos_well_formed(table)
}

// ---- room for every stream of at most so many bytes
// Of either layout.
#[unsafe(no_mangle)]
pub extern "C" fn oskuramos_room(length: usize) -> Room
    ensures { result ≡ handed_room (room_for length) }
{
    oskuramos::oskuramos_room(length)
}

#[unsafe(no_mangle)]
pub extern "C" fn oskuramos_room_2000(length: usize) -> Room
    ensures { result ≡ handed_room (room2000 length) }
{
    oskuramos::oskuramos_room_2000(length)
}

#[unsafe(no_mangle)]
pub extern "C" fn oskuramos_room_later(length: usize) -> Room
    ensures { result ≡ handed_room (room_later_lem length) }
{
    oskuramos::oskuramos_room_later(length)
}

#[unsafe(no_mangle)]
pub extern "C" fn oskuramos_type_info_room(length: usize) -> u32
    ensures { result ≡ type_info_room_lem length }
{
    oskuramos::oskuramos_type_info_room(length)
}

// Where the name of a control stands, by the words of its row: in the stream, or in the label for a numbered one.
#[unsafe(no_mangle)]
pub extern "C" fn oskuramos_control_name(
    stream: &[u8],
    label: &[u8],
    mark: u32,
    start: u32,
    length: u32,
) -> Part
    ensures { result ≡ handed_part (name_part stream.now label.now mark start length) }
{
    oskuramos::oskuramos_control_name(stream, label, mark, start, length)
}

// ---- two code tables joined
#[unsafe(no_mangle)]
pub extern "C" fn oskuramos_join(one: &[u8], other: &[u8], out: &mut [u8]) -> Answer
    ensures value { result ≡ handed_answer (join_exit one.now other.now out.old).answer }
    ensures out_after { out.new ≡ (join_exit one.now other.now out.old).out }
{
    oskuramos::oskuramos_join(one, other, out)
}

// ---- what a newer code table changes
#[unsafe(no_mangle)]
pub extern "C" fn oskuramos_differences(
    older: &[u8],
    newer: &[u8],
    stream: &[u8],
    rows: &mut [u32],
) -> Answer
    ensures value { result ≡ handed_answer (differences_exit older.now newer.now stream.now rows.old).answer }
    ensures rows_after { rows.new ≡ (differences_exit older.now newer.now stream.now rows.old).rows }
{
    oskuramos::oskuramos_differences(older, newer, stream, rows)
}

// ---- an Access 2000 stream in its short spelling
#[unsafe(no_mangle)]
pub extern "C" fn oskuramos_rewrite(stream: &[u8], out: &mut [u8]) -> Answer
    ensures value { result ≡ handed_answer (rewrite_exit stream.now out.old).answer }
    ensures out_after { out.new ≡ (rewrite_exit stream.now out.old).out }
{
    oskuramos::oskuramos_rewrite(stream, out)
}

// ---- text
#[unsafe(no_mangle)]
pub extern "C" fn oskuramos_guid_text(guid: &[u8], out: &mut [u8]) -> Answer
    ensures value { result ≡ handed_answer (guid_exit guid.now out.old).answer }
    ensures out_after { out.new ≡ (guid_exit guid.now out.old).out }
{
    oskuramos::oskuramos_guid_text(guid, out)
}

#[unsafe(no_mangle)]
pub extern "C" fn oskuramos_label_text(n: u32, out: &mut [u8]) -> Answer
    ensures value { result ≡ handed_answer (label_exit n out.old).answer }
    ensures out_after { out.new ≡ (label_exit n out.old).out }
{
    oskuramos::oskuramos_label_text(n, out)
}

#[unsafe(no_mangle)]
pub extern "C" fn oskuramos_is_utf16(bytes: &[u8]) -> bool
    ensures { result ≡ is_utf16_lem bytes.now }
{
    oskuramos::oskuramos_is_utf16(bytes)
}

// ---- names by id, written into the buffer that is lent
#[unsafe(no_mangle)]
pub extern "C" fn oskuramos_text_name(id: u16, out: &mut [u8]) -> Answer
    ensures value { result ≡ handed_answer (name_exit text_names id out.old).answer }
    ensures out_after { out.new ≡ (name_exit text_names id out.old).out }
{
    oskuramos::oskuramos_text_name(id, out)
}

#[unsafe(no_mangle)]
pub extern "C" fn oskuramos_number_name(id: u16, out: &mut [u8]) -> Answer
    ensures value { result ≡ handed_answer (name_exit number_names id out.old).answer }
    ensures out_after { out.new ≡ (name_exit number_names id out.old).out }
{
    oskuramos::oskuramos_number_name(id, out)
}

#[unsafe(no_mangle)]
pub extern "C" fn oskuramos_bytes_name(id: u16, out: &mut [u8]) -> Answer
    ensures value { result ≡ handed_answer (name_exit bytes_names id out.old).answer }
    ensures out_after { out.new ≡ (name_exit bytes_names id out.old).out }
{
    oskuramos::oskuramos_bytes_name(id, out)
}

#[unsafe(no_mangle)]
pub extern "C" fn oskuramos_control_type_name(id: u16, out: &mut [u8]) -> Answer
    ensures value { result ≡ handed_answer (name_exit control_type_names id out.old).answer }
    ensures out_after { out.new ≡ (name_exit control_type_names id out.old).out }
{
    oskuramos::oskuramos_control_type_name(id, out)
}

#[unsafe(no_mangle)]
pub extern "C" fn oskuramos_value_name(mark: u32, id: u16, out: &mut [u8]) -> Answer
    ensures value { result ≡ handed_answer (name_exit (names_for mark) id out.old).answer }
    ensures out_after { out.new ≡ (name_exit (names_for mark) id out.old).out }
{
    oskuramos::oskuramos_value_name(mark, id, out)
}

// ---- values
#[unsafe(no_mangle)]
pub extern "C" fn oskuramos_entry_value(type_code: u32, bytes: &[u8]) -> Value
    ensures { result ≡ handed_value (entry_value_lem type_code bytes.now) }
{
    oskuramos::oskuramos_entry_value(type_code, bytes)
}

#[unsafe(no_mangle)]
pub extern "C" fn oskuramos_stored_value(id: u8, bytes: &[u8]) -> Value
    ensures { result ≡ handed_value (stored_value_lem id bytes.now) }
{
    oskuramos::oskuramos_stored_value(id, bytes)
}

#[unsafe(no_mangle)]
pub extern "C" fn oskuramos_value_as(kind: u8, id: u8, bytes: &[u8]) -> Value
    ensures { result ≡ handed_value (value_as_lem kind id bytes.now) }
{
    oskuramos::oskuramos_value_as(kind, id, bytes)
}
