// The record of an AVP, or of an attribute of RADIUS, and its 36 bytes (docs/FORMAT.md, 6): written to a store and read
// from a table. This crate knows the layout, and nothing of how a record comes about.
#![tactic(auto)]

pub mod kinds;
pub mod outline;

ghost use Rattle.std.specs.Prelude.{◌≡◌, ◌≤◌, ◌++◌, length, take, drop, replicate, leb};
ghost use Rattle.std.proofs.lemmas.List.Edits.{sets};
ghost use Rattle.octets.specs.Octets.{pack};
ghost use Rattle.record.specs.Record.{record_size, layout, record_at};
ghost use Rattle.record.specs.Table.{entry_at};
ghost use Rattle.record.specs.Store.{put, put_found, put_place_and_parent};

#[derive(Clone, Copy, Debug, PartialEq, Eq)]
pub struct Record {
    pub code: u32,
    pub flags: u8,
    /// Actually u24
    pub length: u32,
    pub vendor: u32,
    /// Where the data stand in the input
    pub place: u32,
    pub depth: u8,
    pub kind: u8,
    pub errors: u8,
    /// How many bytes of padding
    pub padding: u8,
    /// The padding as a number of three bytes, the unused ones 0
    pub pads: u32,
    pub value: u64,
    /// The index of the record of its group, or `TOP_LEVEL`
    pub parent: u32,
}

/// Sets every byte to zero.
pub fn clear(store: &mut [u8])
    ensures { store.new ≡ replicate (length store.old) 0 }
{
    store.fill(0);
}

impl Record {
    pub const SIZE: usize = 36;

    /// The last place that fits its four bytes.
    pub const LAST_PLACE: u32 = 0xffff_ffff;

    /// The parent of a record at depth 1.
    pub const TOP_LEVEL: u32 = 0xffff_ffff;

    // The fields of the AVP's header (RFC 6733, section 4.1).
    fn put_header(self, store: &mut [u8])
        requires { record_size ≤ length store.old }
        ensures { store.new ≡ sets store.old 0 (pack (take 4 (layout self))) }
    {
        word::put_u32(&mut store[0..4], self.code);
        word::put_u8_u24(&mut store[4..8], self.flags, self.length);
        word::put_u32(&mut store[8..12], self.vendor);
    }

    // What was found of its data. The padding's three bytes and byte 23, which is zero, are put as one number, since that
    // is one store.
    fn put_data(self, store: &mut [u8])
        requires { record_size ≤ length store.old }
        ensures { store.new ≡ sets store.old 12 (pack (drop 4 (layout self))) }
    {
        word::put_u32(&mut store[12..16], self.place);
        store[16] = self.depth;
        store[17] = self.kind;
        store[18] = self.errors;
        store[19] = self.padding;
        word::put_u32(&mut store[20..24], self.pads % 0x100_0000 * 0x100);
        word::put_u64(&mut store[24..32], self.value);
        word::put_u32(&mut store[32..36], self.parent);
    }

    /// Puts the record at the front of a store, if there is room. Of a length or padding over 24 bits it puts the lowest
    /// 24.
    #[tactic(auto, using(crate::proofs::Layouts::record_length), unfolding(octets::specs::Octets::put_all))]
    pub fn put(self, store: &mut [u8]) -> bool
        ensures is { result ≡ leb record_size (length store.old) }
        ensures store { store.new ≡ put self store.old }
    {
        if store.len() < Self::SIZE {
            return false;
        }
        self.put_header(store);
        self.put_data(store);
        true
    }

    /// Puts what was found of an AVP's data into the record at the front of a store, if there is room for one: its kind,
    /// its error flags and its value.
    #[tactic(auto, unfolding(crate::specs::Store::put_found))]
    pub fn put_found(store: &mut [u8], kind: u8, errors: u8, value: u64)
        ensures { store.new ≡ put_found kind errors value store.old }
    {
        if store.len() < Record::SIZE {
            return;
        }
        store[17] = kind;
        store[18] = errors;
        word::put_u64(&mut store[24..32], value);
    }

    /// Puts another place and another parent into the record at the front of a table, if there is one.
    #[tactic(auto, unfolding(crate::specs::Store::put_place_and_parent))]
    pub fn put_place_and_parent(table: &mut [u8], place: u32, parent: u32)
        ensures { table.new ≡ put_place_and_parent place parent table.old }
    {
        if table.len() < Record::SIZE {
            return;
        }
        word::put_u32(&mut table[12..16], place);
        word::put_u32(&mut table[32..36], parent);
    }

    // A record's bytes at the front of a table. A byte that is absent counts as 0.
    fn padded(table: &[u8]) -> [u8; Self::SIZE]
        ensures { result ≡ take record_size (table.now ++ replicate record_size 0) }
    {
        word::front(table)
    }

    // Bytes 18, 23 and 24 to 31 have no part in it.
    fn fields(table: &[u8]) -> Record
        requires { record_size ≤ length table.now }
        ensures { result ≡ entry_at table.now }
    {
        let flags_length = word::be_u32(&table[4..8]);
        let pads = word::be_u32(&table[20..24]);
        Record {
            code: word::be_u32(&table[0..4]),
            flags: (flags_length / 0x100_0000) as u8,
            length: flags_length % 0x100_0000,
            vendor: word::be_u32(&table[8..12]),
            place: word::be_u32(&table[12..16]),
            depth: table[16],
            kind: table[17],
            errors: 0,
            padding: table[19],
            pads: pads / 0x100,
            value: 0,
            parent: word::be_u32(&table[32..36]),
        }
    }

    /// The record at the front of a table, as the writer takes it: with no errors and no value.
    /// A byte that is absent counts as 0.
    pub fn get(table: &[u8]) -> Record
        ensures { result ≡ entry_at table.now }
    {
        if table.len() < Self::SIZE {
            return Self::fields(&Self::padded(table));
        }
        Self::fields(table)
    }

    // Bytes 18 and 24 to 31 besides, the error flags and the value.
    fn all_fields(table: &[u8]) -> Record
        requires { record_size ≤ length table.now }
        ensures { result ≡ record_at table.now }
    {
        let mut r = Self::fields(table);
        r.errors = table[18];
        r.value = word::be_u64(&table[24..32]);
        r
    }

    /// The whole record at the front of a table. A byte that is absent counts as 0.
    pub fn read(table: &[u8]) -> Record
        ensures { result ≡ record_at table.now }
    {
        if table.len() < Self::SIZE {
            return Self::all_fields(&Self::padded(table));
        }
        Self::all_fields(table)
    }
}
