// The definitions of samples in another scale at worked numbers, evaluated by the prover.
ghost use Rattle.std.specs.Prelude.{◌≡◌, ◌∷◌, [], pos, negsuc, map, from_bits, to_bits};
ghost use lib.Ieee.{binary32};
ghost use Rattle.hound_sample.specs.{clipped, float_of_int, scaled, with_bits};

// A half goes up, and the largest is clipped, as sox has it.
fn the_definition_gives_other_bits()
    ensures fewer { map (λ v. clipped 16 (with_bits 24 16 v))
        (pos 0x123480 ∷ pos 127 ∷ negsuc 127 ∷ negsuc 128 ∷ pos 8388607 ∷ negsuc 8388607 ∷ [])
        ≡ pos 0x1235 ∷ pos 0 ∷ pos 0 ∷ negsuc 0 ∷ pos 32767 ∷ negsuc 32767 ∷ [] }
    ensures more { map (λ v. clipped 24 (with_bits 8 24 v)) (pos 127 ∷ negsuc 127 ∷ [])
        ≡ pos 8323072 ∷ negsuc 8388607 ∷ [] }
{}

// 0.5, a half of a step and one and a half, 1, -1 and a NaN, as ffmpeg has them.
fn the_definition_scales_floats()
    ensures { map (λ p. clipped 16 (scaled 16 (from_bits binary32 p)))
        (0x3f000000 ∷ 0x37800000 ∷ 0x38400000 ∷ 0x3f800000 ∷ 0xbf800000 ∷ 0x7fc00000 ∷ [])
        ≡ pos 16384 ∷ pos 0 ∷ pos 2 ∷ pos 32767 ∷ negsuc 32767 ∷ pos 0 ∷ [] }
{}

// The patterns of 0.5, -1 and the largest, as Python packs them.
fn the_definition_gives_floats()
    ensures { map (λ v. to_bits binary32 (float_of_int 16 v))
        (pos 16384 ∷ negsuc 32767 ∷ pos 32767 ∷ [])
        ≡ 0x3f000000 ∷ 0xbf800000 ∷ 0x3f7ffe00 ∷ [] }
{}

#[test]
fn definitions_give_other_scales(_rt: HostRuntime) {
    the_definition_gives_other_bits();
    the_definition_scales_floats();
    the_definition_gives_floats();
}
