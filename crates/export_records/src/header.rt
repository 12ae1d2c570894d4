// Header records and their texts, for hosts in other languages: by keyword, and the file's name and the system that wrote it.
ghost use Rattle.std.specs.Prelude.{◌≡◌, length};
ghost use Rattle.error.specs.Refusal.{good, told_result};
ghost use Rattle.file_name_texts.specs.Title.{title_by, room_by, file_name};
ghost use Rattle.host_numbers.specs.Answers.{HostTold, Puts, PutsFound, found_code, shown_room, shown_start, shown_stop};
ghost use Rattle.export_records.specs.Records.{host_header_row, host_header_args};

use error::Fault;
use words::Text;

// The first header record with this keyword, letters in either case: 0, with its row's number; 255 where there is none.
pub fn hooflift_header_row(
    file: &[u8],
    headers: &[u32],
    tables: &[u64],
    name: &[u8],
    row: &mut usize,
) -> u8
    ensures value { result ≡ found_code (good (host_header_row file.now headers.now tables.now name.now)) }
    ensures puts_found { PutsFound (λ i. i) (good (host_header_row file.now headers.now tables.now name.now)) row }
{
    let found = headers::header_row(file, headers, host_numbers::tables_of(tables), name);
    host_numbers::put_found(found, row)
}

// Where the arguments of the first header record with this keyword stand: 0, 9, or 255 where there is none.
pub fn hooflift_header_args(
    file: &[u8],
    headers: &[u32],
    tables: &[u64],
    name: &[u8],
    start: &mut usize,
    stop: &mut usize,
) -> u8
    ensures value { result ≡ found_code (host_header_args file.now headers.now tables.now name.now) }
    ensures puts_found { PutsFound (λ x. x.start) (host_header_args file.now headers.now tables.now name.now) start }
    ensures puts_found_2 { PutsFound (λ x. x.end) (host_header_args file.now headers.now tables.now name.now) stop }
{
    match headers::header_args(file, headers, host_numbers::tables_of(tables), name) {
        Ok(Some(r)) => {
            *start = r.start;
            *stop = r.end;
            0
        }
        Ok(None) => 255,
        Err(f) => f.number(),
    }
}

// Tells where a text stands: 0, or the refusal's number, with its place.
fn put_title(
    t: Result<Text, Fault>,
    room: &mut u8,
    start: &mut usize,
    stop: &mut usize,
    fault: &mut usize,
) -> u8
    ensures host_told { HostTold (told_result t) result fault }
    ensures puts { Puts shown_room (told_result t) room }
    ensures puts_2 { Puts shown_start (told_result t) start }
    ensures puts_3 { Puts shown_stop (told_result t) stop }
{
    match t {
        Ok(Text::InFile(w)) => {
            *room = 0;
            *start = w.start;
            *stop = w.stop;
            0
        }
        Ok(Text::InRoom(n)) => {
            *room = 1;
            *start = 0;
            *stop = n;
            0
        }
        Err(f) => host_numbers::put_fault(f, fault),
    }
}

// The file's name, the first parameter of FILE_NAME: 0, with where it begins and ends, in the file where `room` is then 0 and in `out` where
// it is 1; empty where there is none.
pub fn hooflift_file_name(
    file: &[u8],
    headers: &[u32],
    tables: &[u64],
    out: &mut [u8],
    room: &mut u8,
    start: &mut usize,
    stop: &mut usize,
    fault: &mut usize,
) -> u8
    ensures host_told { HostTold (title_by file.now (length out.old) 0 (host_header_args file.now headers.now tables.now file_name)) result fault }
    ensures out_after { out.new ≡ room_by file.now out.old 0 (host_header_args file.now headers.now tables.now file_name) }
    ensures puts { Puts shown_room (title_by file.now (length out.old) 0 (host_header_args file.now headers.now tables.now file_name)) room }
    ensures puts_2 { Puts shown_start (title_by file.now (length out.old) 0 (host_header_args file.now headers.now tables.now file_name)) start }
    ensures puts_3 { Puts shown_stop (title_by file.now (length out.old) 0 (host_header_args file.now headers.now tables.now file_name)) stop }
{
    let t = file_name_texts::file_name(file, headers, host_numbers::tables_of(tables), out);
    put_title(t, room, start, stop, fault)
}

// The system that wrote the file, the sixth parameter of FILE_NAME: 0, with where it begins and ends, in the file where `room` is then 0 and in `out` where
// it is 1; empty where there is none.
pub fn hooflift_originating_system(
    file: &[u8],
    headers: &[u32],
    tables: &[u64],
    out: &mut [u8],
    room: &mut u8,
    start: &mut usize,
    stop: &mut usize,
    fault: &mut usize,
) -> u8
    ensures host_told { HostTold (title_by file.now (length out.old) 5 (host_header_args file.now headers.now tables.now file_name)) result fault }
    ensures out_after { out.new ≡ room_by file.now out.old 5 (host_header_args file.now headers.now tables.now file_name) }
    ensures puts { Puts shown_room (title_by file.now (length out.old) 5 (host_header_args file.now headers.now tables.now file_name)) room }
    ensures puts_2 { Puts shown_start (title_by file.now (length out.old) 5 (host_header_args file.now headers.now tables.now file_name)) start }
    ensures puts_3 { Puts shown_stop (title_by file.now (length out.old) 5 (host_header_args file.now headers.now tables.now file_name)) stop }
{
    let t = file_name_texts::originating_system(
        file,
        headers,
        host_numbers::tables_of(tables),
        out,
    );
    put_title(t, room, start, stop, fault)
}
