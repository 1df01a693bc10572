// The GUIDs that tell which error an error object has (MS-FSSHTTPB 2.2.3.2).
use compact_values::Guid;

/// A cell error, 5a66a756-87ce-4290-a38b-c61c5ba05a67.
pub const CELL_ERROR: Guid = Guid {
    number: 0x5a66_a756_87ce_4290_a38b_c61c_5ba0_5a67,
};

/// An HRESULT, 8454c8f2-e401-405a-a198-a10b6991b56e.
pub const HRESULT_ERROR: Guid = Guid {
    number: 0x8454_c8f2_e401_405a_a198_a10b_6991_b56e,
};
