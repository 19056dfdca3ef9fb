// The definitions at files and containers that were written elsewhere, evaluated by the prover.
ghost use Rattle.std.specs.Prelude.{◌≡◌, ◌∷◌, ◌++◌, [], true, false, codes, pos, negsuc, replicate, take, Ok, map};
ghost use Rattle.hound_repair.specs.{is_followed};
ghost use Rattle.hound_spec.specs.{canonical, header, mask, riff_size};
ghost use Rattle.hound_sample.specs.{int_container};
ghost use Rattle.hound_reader.specs.{way_to, container_at};
ghost use Rattle.hound_walk.specs.{Head, Rejected};
ghost use Rattle.hound_tests.specs.Files.{four_samples, four_containers, padded_containers, long_fact, empty_fact, odd_junk, long_fmt, past_the_limit, odd_at_the_limit, even_at_the_limit, fmt_at_the_limit, mono_16, mono_float, stereo_24, counted, AreRead};
ghost use Rattle.hound_walk.specs.declared.cause.Cause.TheVariants.{Ended, Format};
ghost use Rattle.hound_walk.specs.declared.cause.Reason.TheVariants.{NoDataChunk};

use hound_spec::{SampleFormat, WavSpec, WavSpecEx};

const MONO_16: WavSpecEx = WavSpecEx {
    spec: WavSpec {
        channels: 1,
        sample_rate: 44100,
        bits_per_sample: 16,
        sample_format: SampleFormat::Int,
    },
    bytes_per_sample: 2,
};

const MONO_16_HEADER: [u8; 44] = *b"RIFF\x2c\0\0\0WAVEfmt \x10\0\0\0\x01\0\x01\0\x44\xac\0\0\
    \x88\x58\x01\0\x02\0\x10\0data\x08\0\0\0";

const STEREO_24_IN_4: WavSpecEx = WavSpecEx {
    spec: WavSpec {
        channels: 2,
        sample_rate: 48000,
        bits_per_sample: 24,
        sample_format: SampleFormat::Int,
    },
    bytes_per_sample: 4,
};

const STEREO_24_IN_4_HEADER: [u8; 68] = *b"RIFF\x4c\0\0\0WAVEfmt \x28\0\0\0\
    \xfe\xff\x02\0\x80\xbb\0\0\0\xdc\x05\0\x08\0\x20\0\x16\0\x18\0\x03\0\0\0\
    \x01\0\0\0\0\0\x10\0\x80\0\0\xaa\0\x38\x9b\x71data\x10\0\0\0";

const WIDEST: WavSpecEx = WavSpecEx {
    spec: WavSpec {
        channels: 65535,
        sample_rate: 65537,
        bits_per_sample: 8,
        sample_format: SampleFormat::Int,
    },
    bytes_per_sample: 1,
};

const WIDEST_HEADER: [u8; 68] = *b"RIFF\x3c\0\0\0WAVEfmt \x28\0\0\0\xfe\xff\xff\xff\x01\0\x01\0\
    \xff\xff\xff\xff\xff\xff\x08\0\x16\0\x08\0\xff\xff\x03\0\
    \x01\0\0\0\0\0\x10\0\x80\0\0\xaa\0\x38\x9b\x71data\0\0\0\0";

const MONO_FLOAT: WavSpecEx = WavSpecEx {
    spec: WavSpec {
        channels: 1,
        sample_rate: 44100,
        bits_per_sample: 32,
        sample_format: SampleFormat::Float,
    },
    bytes_per_sample: 4,
};

const MONO_FLOAT_HEADER: [u8; 68] = *b"RIFF\x40\0\0\0WAVEfmt \x28\0\0\0\xfe\xff\x01\0\x44\xac\0\0\
    \x10\xb1\x02\0\x04\0\x20\0\x16\0\x20\0\x01\0\0\0\
    \x03\0\0\0\0\0\x10\0\x80\0\0\xaa\0\x38\x9b\x71data\x04\0\0\0";

// The definition of a header at these specs, by computing.
#[tactic(auto, unfolding(hound_spec::specs::Header::header, hound_spec::specs::Header::sized_fmt))]
fn the_definition_gives_the_headers()
    ensures mono_16 { header MONO_16 44 8 ≡ MONO_16_HEADER }
    ensures stereo_24_in_4 { header STEREO_24_IN_4 76 16 ≡ STEREO_24_IN_4_HEADER }
    ensures widest { header WIDEST 60 0 ≡ WIDEST_HEADER }
    ensures mono_float { header MONO_FLOAT 64 4 ≡ MONO_FLOAT_HEADER }
{}

const MONO_8: WavSpecEx = WavSpecEx {
    spec: WavSpec {
        channels: 1,
        sample_rate: 8000,
        bits_per_sample: 8,
        sample_format: SampleFormat::Int,
    },
    bytes_per_sample: 1,
};

// One sample, and a pad byte after it.
const MONO_8_FILE: [u8; 46] = *b"RIFF\x26\0\0\0WAVEfmt \x10\0\0\0\x01\0\x01\0\x40\x1f\0\0\
    \x40\x1f\0\0\x01\0\x08\0data\x01\0\0\0\x80\0";

// Two samples, and nothing after them.
const MONO_8_EVEN_FILE: [u8; 46] = *b"RIFF\x26\0\0\0WAVEfmt \x10\0\0\0\x01\0\x01\0\x40\x1f\0\0\
    \x40\x1f\0\0\x01\0\x08\0data\x02\0\0\0\x81\x82";

// The definition of a whole file at these samples, and of the largest sizes, by computing.
#[tactic(auto, unfolding(hound_spec::specs::Header::header, hound_spec::specs::Header::sized_fmt))]
fn the_definition_gives_the_files()
    ensures odd { canonical MONO_8 ((0x80 ∷ []) ∷ []) ≡ MONO_8_FILE }
    ensures even { canonical MONO_8 ((0x81 ∷ []) ∷ (0x82 ∷ []) ∷ []) ≡ MONO_8_EVEN_FILE }
    ensures most_after_44 { riff_size 44 4294967258 ≡ 4294967294 }
    ensures more_after_44 { riff_size 44 4294967259 ≡ 4294967296 }
    ensures most_after_68 { riff_size 68 4294967234 ≡ 4294967294 }
    ensures more_after_68 { riff_size 68 4294967235 ≡ 4294967296 }
{}

// The definition of what follows data at these bytes, by computing.
#[tactic(auto, unfolding(hound_repair::specs::Held::is_followed, hound_repair::specs::Held::are_chunks, hound_repair::specs::Held::are_at_most, hound_repair::specs::Held::chunk_content, hound_repair::specs::Held::has_known_tag, hound_repair::specs::Held::ends_with_id3))]
fn the_definition_finds_what_follows()
    ensures nothing { is_followed 2 (2 ∷ 0 ∷ []) ≡ false }
    ensures zeros { is_followed 0 (replicate 12 0) ≡ false }
    ensures tag { is_followed 2 (2 ∷ 0 ∷ codes "LIST") ≡ true }
    ensures cut_tag { is_followed 2 (2 ∷ 0 ∷ codes "LIS") ≡ false }
    ensures no_pad { is_followed 1 (128 ∷ codes "bext") ≡ true }
    ensures pad { is_followed 1 (128 ∷ 0 ∷ codes "bext") ≡ true }
    ensures later { is_followed 2 (2 ∷ 0 ∷ 0 ∷ 0 ∷ codes "LIST") ≡ false }
    ensures other_tag { is_followed 2 (2 ∷ 0 ∷ codes "note") ≡ false }
    ensures other_chunk { is_followed 2 (2 ∷ 0 ∷ codes "note" ++ (1 ∷ 0 ∷ 0 ∷ 0 ∷ 7 ∷ [])) ≡ true }
    ensures cut_chunk { is_followed 2 (2 ∷ 0 ∷ codes "note" ++ (2 ∷ 0 ∷ 0 ∷ 0 ∷ 7 ∷ [])) ≡ false }
    ensures both { is_followed 2 (2 ∷ 0 ∷ codes "note" ++ ((1 ∷ 0 ∷ 0 ∷ 0 ∷ 7 ∷ 0 ∷ []) ++ codes "PEAK")) ≡ true }
    ensures id3 { is_followed 2 (2 ∷ 0 ∷ codes "TAG" ++ replicate 125 32) ≡ true }
    ensures id3_in_data { is_followed 3 (2 ∷ 0 ∷ codes "TAG" ++ replicate 125 32) ≡ false }
    ensures id3_before { is_followed 2 (2 ∷ 0 ∷ codes "TAG" ++ replicate 126 32) ≡ false }
{}

// The definition of a mask at these channels, by computing.
fn the_definition_gives_the_masks()
    ensures none { mask 0 ≡ 0 }
    ensures stereo { mask 2 ≡ 3 }
    ensures most { mask 18 ≡ 0x3ffff }
    ensures more { mask 129 ≡ 0x3ffff }
{}

const NUMBERS_OF_8: [i32; 5] = [19, -53, 89, -127, -128];

const BYTES_OF_8: [[u8; 1]; 5] = [[0x93], [0x4b], [0xd9], [0x01], [0x00]];

const NUMBERS_OF_16: [i32; 4] = [2, -3, 5, -7];

const BYTES_OF_16: [[u8; 2]; 4] = [[0x02, 0x00], [0xfd, 0xff], [0x05, 0x00], [0xf9, 0xff]];

const NUMBERS_OF_24: [i32; 4] = [-17, 4_194_319, -6_291_437, 8_355_817];

const BYTES_OF_24: [[u8; 3]; 4] = [
    [0xef, 0xff, 0xff],
    [0x0f, 0x00, 0x40],
    [0x13, 0x00, 0xa0],
    [0xe9, 0x7f, 0x7f],
];

const NUMBERS_OF_24_IN_4: [i32; 4] = [-96, 23052, 8_388_607, -8_360_672];

const BYTES_OF_24_IN_4: [[u8; 4]; 4] = [
    [0xa0, 0xff, 0xff, 0x00],
    [0x0c, 0x5a, 0x00, 0x00],
    [0xff, 0xff, 0x7f, 0x00],
    [0x20, 0x6d, 0x80, 0x00],
];

const NUMBERS_OF_32: [i32; 4] = [19, -229_373, 33_587_161, -2_147_483_497];

const BYTES_OF_32: [[u8; 4]; 4] = [
    [0x13, 0x00, 0x00, 0x00],
    [0x03, 0x80, 0xfc, 0xff],
    [0xd9, 0x7f, 0x00, 0x02],
    [0x97, 0x00, 0x00, 0x80],
];

// The definition of a container at these numbers, by computing.
#[tactic(auto, unfolding(hound_sample::specs::Container::int_container))]
fn the_definition_gives_the_containers()
    ensures in_8_bits { map (λ x. int_container x 8 1) NUMBERS_OF_8 ≡ map Ok BYTES_OF_8 }
    ensures in_16_bits { map (λ x. int_container x 16 2) NUMBERS_OF_16 ≡ map Ok BYTES_OF_16 }
    ensures in_24_bits { map (λ x. int_container x 24 3) NUMBERS_OF_24 ≡ map Ok BYTES_OF_24 }
    ensures in_24_bits_of_32 { map (λ x. int_container x 24 4) NUMBERS_OF_24_IN_4
        ≡ map Ok BYTES_OF_24_IN_4 }
    ensures in_32_bits { map (λ x. int_container x 32 4) NUMBERS_OF_32 ≡ map Ok BYTES_OF_32 }
{}

// What the definitions make of files and containers that were written elsewhere.
fn definitions_at_files()
    ensures four_samples { Head four_samples mono_16 8 44 }
    ensures cut { Rejected (take 30 four_samples) Ended }
    ensures limit { Rejected past_the_limit (Format NoDataChunk) }
    ensures long_fact { Head long_fact mono_16 8 60 }
    ensures empty_fact { Head empty_fact mono_16 8 52 }
    ensures odd_junk { Head odd_junk mono_16 8 56 }
    ensures long_fmt { Head long_fmt mono_float 4 70 }
    ensures odd_limit { Rejected odd_at_the_limit (Format NoDataChunk) }
    ensures even_limit { Rejected even_at_the_limit Ended }
    ensures fmt_limit { Rejected fmt_at_the_limit (Format NoDataChunk) }
    ensures one_byte { AreRead 1 8 (0x93 ∷ 0x4b ∷ 0xd9 ∷ 0x01 ∷ 0x00 ∷ [])
        (pos 19 ∷ negsuc 52 ∷ pos 89 ∷ negsuc 126 ∷ negsuc 127 ∷ []) }
    ensures two_bytes { AreRead 2 16 four_containers (pos 2 ∷ negsuc 2 ∷ pos 5 ∷ negsuc 6 ∷ []) }
    ensures three_bytes { AreRead 3 24
        (0xef ∷ 0xff ∷ 0xff ∷ 0x0f ∷ 0x00 ∷ 0x40 ∷ 0x13 ∷ 0x00 ∷ 0xa0 ∷ 0xe9 ∷ 0x7f ∷ 0x7f ∷ [])
        (negsuc 16 ∷ pos 4194319 ∷ negsuc 6291436 ∷ pos 8355817 ∷ []) }
    ensures three_of_four { AreRead 4 24 padded_containers (negsuc 95 ∷ pos 23052 ∷ pos 8388607 ∷ negsuc 8360671 ∷ []) }
    ensures four_bytes { AreRead 4 32
        (0x13 ∷ 0x00 ∷ 0x00 ∷ 0x00 ∷ 0x03 ∷ 0x80 ∷ 0xfc ∷ 0xff ∷ 0xd9 ∷ 0x7f ∷ 0x00 ∷ 0x02 ∷ 0x97 ∷ 0x00 ∷ 0x00 ∷ 0x80 ∷ []) (pos 19 ∷ negsuc 229372 ∷ pos 33587161 ∷ negsuc 2147483496 ∷ []) }
    ensures after_a_rejection { way_to 1 (counted stereo_24 1 0) ≡ pos 8 }
    ensures after_a_sample { way_to 1 (counted stereo_24 1 4) ≡ pos 4 }
    ensures after_a_torn_one { way_to 0 (counted mono_16 2 3) ≡ negsuc 2 }
    ensures third { container_at 4 2 padded_containers ≡ 0xff ∷ 0xff ∷ 0x7f ∷ 0x00 ∷ [] }
{}

#[test]
fn definitions_give_what_files_have(_rt: HostRuntime) {
    the_definition_gives_the_headers();
    the_definition_gives_the_files();
    the_definition_finds_what_follows();
    the_definition_gives_the_masks();
    the_definition_gives_the_containers();
    definitions_at_files();
}
