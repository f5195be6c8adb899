// The tables and the arithmetic of a BC7 block.
ghost use Rattle.std.specs.Prelude.{◌≡◌, ℕ, ◌^◌, ◌<◌, ◌≤◌, get_or};
ghost use Rattle.rules.specs.Bptc.{weights_of};
ghost use Rattle.rules.specs.Notation.{build};
ghost use Rattle.rules.specs.Bc7.{lowest, expand as expand_to, blend as blend_of};
ghost use Rattle.bc7.specs.bptc.Layout.{layout_of};

// Two subsets, and three: the subset of pixel i in bits 2i and 2i + 1, and a bit for each anchor from bit 32 on.
static TWO: [u64; 64] = [
    0x800150505050,
    0x800140404040,
    0x800154545454,
    0x800154505040,
    0x800150404000,
    0x800155545450,
    0x800155545040,
    0x800154504000,
    0x800150400000,
    0x800155555450,
    0x800155544000,
    0x800154400000,
    0x800155555440,
    0x800155550000,
    0x800155555500,
    0x800155000000,
    0x800155150100,
    0x000500004054,
    0x010115010000,
    0x000500405054,
    0x000500004050,
    0x010115050100,
    0x010105010000,
    0x800140505054,
    0x000500404050,
    0x010105010100,
    0x000514141414,
    0x000505141450,
    0x010101155440,
    0x010100555500,
    0x000515014054,
    0x000505414150,
    0x800144444444,
    0x800155005500,
    0x004111441144,
    0x010105055050,
    0x000505500550,
    0x010111114444,
    0x800141144114,
    0x800144111144,
    0x000515055054,
    0x010101055040,
    0x000505041050,
    0x000505455150,
    0x000514414114,
    0x800150050550,
    0x800141411414,
    0x004100141400,
    0x004100041504,
    0x000500105410,
    0x004110541000,
    0x010104150400,
    0x800150410514,
    0x800141051450,
    0x000505415014,
    0x000514054150,
    0x800141050514,
    0x800141505014,
    0x800140011554,
    0x800154150140,
    0x800150505500,
    0x000500555050,
    0x000515151010,
    0x800154540404,
];

static THREE: [u64; 64] = [
    0x8009aa685050,
    0x01096a5a5040,
    0x81015a5a4200,
    0x80095450a0a8,
    0x8101a5a50000,
    0x8009a0a05050,
    0x80095555a0a0,
    0x81015a5a5050,
    0x8101aa550000,
    0x8101aa555500,
    0x8041aaaa5500,
    0x804190909090,
    0x804194949494,
    0x8021a4a4a4a4,
    0x8009a9a59450,
    0x01092a0a4250,
    0x8009a5945040,
    0x01090a425054,
    0x8101a5a5a500,
    0x800955a0a0a0,
    0x8009a8a85454,
    0x01096a6a4040,
    0x8041a4a45000,
    0x05011a1a0500,
    0x00290050a4a4,
    0x8101aaa59090,
    0x014114696914,
    0x044169691400,
    0x8101a08585a0,
    0x8021aa821414,
    0x840150a4a450,
    0x81016a5a0200,
    0x8101a9a58000,
    0x80095090a0a8,
    0x8009a8a09050,
    0x042124242424,
    0x044100aa5500,
    0x050124924924,
    0x030124499224,
    0x840150a50a50,
    0x8041500aa550,
    0x8009aaaa4444,
    0x810166660000,
    0x8021a5a0a5a0,
    0x800950a050a0,
    0x804169286928,
    0x804144aaaa44,
    0x810166666600,
    0x8009aa444444,
    0x800954a854a8,
    0x802195809580,
    0x802196969600,
    0x8021a85454a8,
    0x810180959580,
    0x8021aa141414,
    0x840196960000,
    0x8021aaaa1414,
    0x8401a05050a0,
    0x8101a0a5a5a0,
    0xa00196000000,
    0x800940804080,
    0x9001a9a8a9a8,
    0x8009aaaaaa44,
    0x01092a4a5254,
];

// The layout of partition p of n subsets.
pub fn layout(n: usize, p: usize) -> u64
    requires { (1 ≤ n) × (n ≤ 3) × (p < 64) }
    ensures { result ≡ layout_of n p }
{
    match n {
        1 => 0x1_0000_0000,
        2 => TWO[p],
        _ => THREE[p],
    }
}

// How many bits 0 stand below the lowest 1.
pub fn zeros_below(b: u8) -> usize
    ensures { result ≡ lowest 8 b 0 }
{
    b.trailing_zeros() as usize
}

// w bits made eight.
pub fn expand(w: usize, v: u8) -> u8
    requires { (w ≤ 8) × (v < 2 ^ w) }
    ensures { result ≡ expand_to w v }
{
    let s = u32::from(v) << (8 - w);
    (s + (s >> w)) as u8
}

// Between a and b, by a weight of 64.
pub fn blend(a: u8, b: u8, w: u8) -> u32
    requires { w ≤ 64 }
    ensures { (result ≡ blend_of a b w) × (result < 256) }
{
    (u32::from(a) * (64 - u32::from(w)) + u32::from(b) * u32::from(w) + 32) / 64
}

// The weights of an index of two, three and four bits, and 0 after them.
static WEIGHTS: [[u8; 16]; 3] = [
    [0, 21, 43, 64, 0, 0, 0, 0, 0, 0, 0, 0, 0, 0, 0, 0],
    [0, 9, 18, 27, 37, 46, 55, 64, 0, 0, 0, 0, 0, 0, 0, 0],
    [0, 4, 9, 13, 17, 21, 26, 30, 34, 38, 43, 47, 51, 55, 60, 64],
];

// The weight of each of sixteen indices of n bits.
pub fn weigh(indices: [u8; 16], n: usize) -> [u8; 16]
    requires le_n { (2 ≤ n) × (n ≤ 4) }
    requires by_index { (k : ℕ) → get_or indices k 0 < 16 }
    ensures { result ≡ build 16 (λ i. get_or (weights_of n) (get_or indices i 0) 0) }
{
    let t = WEIGHTS[n - 2];
    let mut out = [0u8; 16];
    for i in 0..16 {
        out[i] = t[usize::from(indices[i])];
    }
    out
}
