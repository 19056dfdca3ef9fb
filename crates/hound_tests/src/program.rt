// The words of the program's contracts at worked lines, evaluated by the prover.
ghost use Rattle.std.specs.Prelude.{◌≡◌, ◌∷◌, [], codes, negsuc, pos};
ghost use Rattle.hound_commands.specs.Commands.{sample_lines, spec_line};
ghost use Rattle.hound_text.specs.{words, integer_line, pattern_line};

use hound::{SampleFormat, WavSpec, WavSpecEx};

const MONO: WavSpec = WavSpec {
    channels: 1,
    sample_rate: 44100,
    bits_per_sample: 16,
    sample_format: SampleFormat::Int,
};

const MONO_16: WavSpecEx = WavSpecEx {
    spec: MONO,
    bytes_per_sample: 2,
};

// 2, -3, 5, -7.
const FOUR_SAMPLES: [u8; 8] = [0x02, 0x00, 0xfd, 0xff, 0x05, 0x00, 0xf9, 0xff];

const MONO_FLOAT: WavSpecEx = WavSpecEx {
    spec: WavSpec {
        channels: 1,
        sample_rate: 48000,
        bits_per_sample: 32,
        sample_format: SampleFormat::Float,
    },
    bytes_per_sample: 4,
};

fn the_lines_of_numbers()
    ensures least { integer_line (negsuc 2147483647) ≡ codes "-2147483648\n" }
    ensures zero { integer_line (pos 0) ≡ codes "0\n" }
    ensures one { pattern_line 0x3f800000 ≡ codes "3f800000\n" }
    ensures small { pattern_line 1 ≡ codes "00000001\n" }
{}

fn the_words_of_texts()
    ensures some { words (codes " 1\t-2\r\n\n3") ≡ codes "1" ∷ codes "-2" ∷ codes "3" ∷ [] }
    ensures none { words (codes " \n") ≡ [] }
{}

fn the_lines_of_files()
    ensures spec { spec_line MONO 4 ≡ codes "channels 1 rate 44100 bits 16 format int samples 4\n" }
    ensures integers { sample_lines MONO_16 4 FOUR_SAMPLES ≡ codes "2\n-3\n5\n-7\n" }
    ensures floats { sample_lines MONO_FLOAT 1 (0 ∷ 0 ∷ 0x80 ∷ 0x3f ∷ []) ≡ codes "3f800000\n" }
{}

#[test]
fn definitions_give_the_lines(_rt: HostRuntime) {
    the_lines_of_numbers();
    the_words_of_texts();
    the_lines_of_files();
}
