// The ceilings of a feed set. Every layer above takes them from here.
#![tactic(auto)]

ghost use Rattle.std.specs.Prelude.{◌≡◌};
ghost use Rattle.limits.specs.inner.Constants.{ceilings};

#[derive(Clone, Copy, Debug, PartialEq, Eq)]
pub struct Limits {
    pub file_bytes: usize,
    pub depth: u8,
    pub records: u16,
    pub segments: u16,
    pub polygons: u16,
    pub rings: u16,
    pub zone_rings: u16,
    pub rules: u16,
    pub positions: u16,
    pub items: u16,
    pub id_bytes: usize,
}

impl Limits {
    // The length of a file.
    pub const FILE_BYTES: usize = 1_048_575;
    // Open brackets at once; the outermost one is the first.
    pub const DEPTH: u8 = 16;
    // Records of a file.
    pub const RECORDS: u16 = 4_095;
    // Segments of each sort in a plan.
    pub const SEGMENTS: u16 = 16;
    // Polygons of a zone.
    pub const POLYGONS: u16 = 15;
    // Rings of a polygon.
    pub const RINGS: u16 = 8;
    // Rings of a zone, over all its polygons.
    pub const ZONE_RINGS: u16 = 15;
    // Rules of a zone.
    pub const RULES: u16 = 32;
    // Positions of a ring.
    pub const POSITIONS: u16 = 256;
    // Items of vehicle_types_available, and of a rule's vehicle_type_id.
    pub const ITEMS: u16 = 64;
    // Bytes of an id, its escapes decoded.
    pub const ID_BYTES: usize = 100;

    // The constants as one value: that they are the ceilings of the definition is proved here, once for all of them.
    pub fn base() -> Limits
        ensures { result ≡ ceilings }
    {
        Limits {
            file_bytes: Limits::FILE_BYTES,
            depth: Limits::DEPTH,
            records: Limits::RECORDS,
            segments: Limits::SEGMENTS,
            polygons: Limits::POLYGONS,
            rings: Limits::RINGS,
            zone_rings: Limits::ZONE_RINGS,
            rules: Limits::RULES,
            positions: Limits::POSITIONS,
            items: Limits::ITEMS,
            id_bytes: Limits::ID_BYTES,
        }
    }
}
