// The id index, for hosts in other languages: what stands beside the slots goes through eight lent numbers.
ghost use Rattle.std.specs.Prelude.{◌≡◌, leb, length};
ghost use Rattle.common.specs.Pick.{pick};
ghost use Rattle.index.specs.Search.{searched};
ghost use Rattle.host_numbers.specs.Numbers.{ids_by};
ghost use Rattle.find_many.specs.Finds.{row_number, RowsTold};
ghost use Rattle.export.specs.Ids.{lent_enough, index_code, HostIndexed};

// Whether slots and numbers of these lengths suffice for so many records of a table, and the index can hold them.
fn enough(rows: usize, count: usize, slots: usize, ids: usize) -> bool
    ensures { result ≡ lent_enough rows count slots ids }
{
    let records = table::table_rows(rows, count);
    (8 <= ids) & (records <= slots) & (records <= 1073741824)
}

// Builds the index of the first `count` rows in the slots: 0, with what stands beside them in the first of eight numbers; or 16 where
// `ids` has no room for eight, a record would have no slot or there are more than 2^30, and everything as it was.
pub fn hooflift_index(rows: &[u32], count: usize, slots: &mut [u64], ids: &mut [u64]) -> u8
    ensures value { result ≡ index_code rows.now count slots.old ids.old }
    ensures host_indexed { HostIndexed rows.now count slots.old slots.new ids.old ids.new }
{
    if enough(rows.len(), count, slots.len(), ids.len()) {
        let b = index::build(rows, count, slots);
        host_numbers::put_ids(ids, b);
        return 0;
    }
    16
}

// The last row with this id, by the slots and the eight numbers that `hooflift_index` left; or 4294967295 where there is none. The row that
// is looked at first is looked at before anything is made ready for the search, which takes the numbers from the host's once more.
// Kept: by `find_many::row_of` alone, which looks at that row too, a lookup of dense ids takes 136 instructions in place of 89.
pub fn hooflift_get(rows: &[u32], slots: &[u64], ids: &[u64], id: u32) -> u32
    ensures { result ≡ row_number (searched rows.now slots.now (ids_by ids.now) id) }
{
    let b = host_numbers::ids_of(ids);
    let r = index::first_row(slots, b, id);
    if index::stands(rows, slots.len(), b.count, r, id) {
        return r;
    }
    find_many::row_of(rows, slots, host_numbers::ids_of(ids), id)
}

// The last row of each id, or 4294967295 where there is none, at the start of `found`, in the order of the ids: 0. Or 16 where `found` is
// shorter than the ids, and everything as it was.
pub fn hooflift_get_all(
    rows: &[u32],
    slots: &[u64],
    beside: &[u64],
    ids: &[u32],
    found: &mut [u32],
) -> u8
    ensures value { result ≡ pick (leb (length ids.now) (length found.old)) 0 16 }
    ensures rows_told { RowsTold (λ k. row_number (searched rows.now slots.now (ids_by beside.now) k)) ids.now found.old found.new }
{
    let b = host_numbers::ids_of(beside);
    if find_many::get_all(rows, slots, b, ids, found) {
        return 0;
    }
    16
}
