// Header records and their texts, for hosts in other languages: by keyword, and the file's name and the system that wrote it.
ghost use Rattle.std.specs.Prelude.{◌≡◌, length};
ghost use Rattle.error.specs.Refusal.{good};
ghost use Rattle.file_name_texts.specs.Title.{title_by, room_by, file_name};
ghost use Rattle.host_numbers.specs.Answers.{HostTold, Puts, PutsFound, found_code, shown_room, shown_start, shown_stop};
ghost use Rattle.export_records.specs.Records.{host_header_row, host_header_args};

// As `export_records::hooflift_header_row`.
#[unsafe(no_mangle)]
pub extern "C" fn hooflift_header_row(
    file: &[u8],
    headers: &[u32],
    tables: &[u64],
    name: &[u8],
    row: &mut usize,
) -> u8
    ensures value { result ≡ found_code (good (host_header_row file.now headers.now tables.now name.now)) }
    ensures puts_found { PutsFound (λ i. i) (good (host_header_row file.now headers.now tables.now name.now)) row }
{
    export_records::hooflift_header_row(file, headers, tables, name, row)
}

// As `export_records::hooflift_header_args`.
#[unsafe(no_mangle)]
pub extern "C" fn hooflift_header_args(
    file: &[u8],
    headers: &[u32],
    tables: &[u64],
    name: &[u8],
    start: &mut usize,
    stop: &mut usize,
) -> u8
    ensures value { result ≡ found_code (host_header_args file.now headers.now tables.now name.now) }
    ensures puts_found { PutsFound (λ x. x.start) (host_header_args file.now headers.now tables.now name.now) start }
    ensures puts_found_2 { PutsFound (λ x. x.end) (host_header_args file.now headers.now tables.now name.now) stop }
{
    export_records::hooflift_header_args(file, headers, tables, name, start, stop)
}

// As `export_records::hooflift_file_name`.
#[unsafe(no_mangle)]
pub extern "C" fn hooflift_file_name(
    file: &[u8],
    headers: &[u32],
    tables: &[u64],
    out: &mut [u8],
    room: &mut u8,
    start: &mut usize,
    stop: &mut usize,
    fault: &mut usize,
) -> u8
    ensures host_told { HostTold (title_by file.now (length out.old) 0 (host_header_args file.now headers.now tables.now file_name)) result fault }
    ensures out_after { out.new ≡ room_by file.now out.old 0 (host_header_args file.now headers.now tables.now file_name) }
    ensures puts { Puts shown_room (title_by file.now (length out.old) 0 (host_header_args file.now headers.now tables.now file_name)) room }
    ensures puts_2 { Puts shown_start (title_by file.now (length out.old) 0 (host_header_args file.now headers.now tables.now file_name)) start }
    ensures puts_3 { Puts shown_stop (title_by file.now (length out.old) 0 (host_header_args file.now headers.now tables.now file_name)) stop }
{
    export_records::hooflift_file_name(file, headers, tables, out, room, start, stop, fault)
}

// As `export_records::hooflift_originating_system`.
#[unsafe(no_mangle)]
pub extern "C" fn hooflift_originating_system(
    file: &[u8],
    headers: &[u32],
    tables: &[u64],
    out: &mut [u8],
    room: &mut u8,
    start: &mut usize,
    stop: &mut usize,
    fault: &mut usize,
) -> u8
    ensures host_told { HostTold (title_by file.now (length out.old) 5 (host_header_args file.now headers.now tables.now file_name)) result fault }
    ensures out_after { out.new ≡ room_by file.now out.old 5 (host_header_args file.now headers.now tables.now file_name) }
    ensures puts { Puts shown_room (title_by file.now (length out.old) 5 (host_header_args file.now headers.now tables.now file_name)) room }
    ensures puts_2 { Puts shown_start (title_by file.now (length out.old) 5 (host_header_args file.now headers.now tables.now file_name)) start }
    ensures puts_3 { Puts shown_stop (title_by file.now (length out.old) 5 (host_header_args file.now headers.now tables.now file_name)) stop }
{
    export_records::hooflift_originating_system(
        file, headers, tables, out, room, start, stop, fault,
    )
}
