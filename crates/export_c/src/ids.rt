// The id index, for hosts in other languages: what stands beside the slots goes through eight lent numbers.
ghost use Rattle.std.specs.Prelude.{◌≡◌, leb, length};
ghost use Rattle.common.specs.Pick.{pick};
ghost use Rattle.index.specs.Search.{searched};
ghost use Rattle.host_numbers.specs.Numbers.{ids_by};
ghost use Rattle.find_many.specs.Finds.{row_number, RowsTold};
ghost use Rattle.export.specs.Ids.{index_code, HostIndexed};

// As `export::hooflift_index`.
#[unsafe(no_mangle)]
pub extern "C" fn hooflift_index(
    rows: &[u32],
    count: usize,
    slots: &mut [u64],
    ids: &mut [u64],
) -> u8
    ensures value { result ≡ index_code rows.now count slots.old ids.old }
    ensures host_indexed { HostIndexed rows.now count slots.old slots.new ids.old ids.new }
{
    export::hooflift_index(rows, count, slots, ids)
}

// As `export::hooflift_get`.
#[unsafe(no_mangle)]
pub extern "C" fn hooflift_get(rows: &[u32], slots: &[u64], ids: &[u64], id: u32) -> u32
    ensures { result ≡ row_number (searched rows.now slots.now (ids_by ids.now) id) }
{
    export::hooflift_get(rows, slots, ids, id)
}

// As `export::hooflift_get_all`.
#[unsafe(no_mangle)]
pub extern "C" fn hooflift_get_all(
    rows: &[u32],
    slots: &[u64],
    beside: &[u64],
    ids: &[u32],
    found: &mut [u32],
) -> u8
    ensures value { result ≡ pick (leb (length ids.now) (length found.old)) 0 16 }
    ensures rows_told { RowsTold (λ k. row_number (searched rows.now slots.now (ids_by beside.now) k)) ids.now found.old found.new }
{
    export::hooflift_get_all(rows, slots, beside, ids, found)
}
