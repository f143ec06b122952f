// The calls that start voices of the box that a script has open.
ghost use Rattle.std.specs.Prelude.{◌≡◌};
ghost use Rattle.replay_box.specs.Boxes.{toned, poly_bleped, faded, played};
ghost use Rattle.sounder.specs.Sounders.{request_of};

use crate::OpenBox;
use envelope::AdsrSpec;
use error::AudioError;
use polyblep::PolyBlepWaveform;
use tone::Waveform;

impl OpenBox {
    #[tactic(auto, unfolding(crate::specs::Boxes::toned))]
    pub fn play_tone(&mut self, freq_hz: u32, duration_ms: u16, waveform: Waveform)
        ensures { self.new ≡ toned self.old freq_hz duration_ms waveform }
    {
        match self {
            OpenBox::Engine(e) => e.play_tone(freq_hz, duration_ms, waveform),
            OpenBox::Sounder(s) => s.play_tone(freq_hz, duration_ms, waveform),
        }
    }

    #[tactic(auto, unfolding(crate::specs::Boxes::poly_bleped))]
    pub fn play_polyblep(&mut self, freq_hz: u32, duration_ms: u16, waveform: PolyBlepWaveform)
        ensures { self.new ≡ poly_bleped self.old freq_hz duration_ms waveform }
    {
        match self {
            OpenBox::Engine(e) => e.play_polyblep(freq_hz, duration_ms, waveform),
            OpenBox::Sounder(s) => s.play_polyblep(freq_hz, duration_ms, waveform),
        }
    }

    #[tactic(auto, unfolding(crate::specs::Boxes::faded))]
    pub fn crossfade_to(
        &mut self,
        bytes: &[u8],
        effect_id: u16,
        duration_ms: u16,
        adsr: AdsrSpec,
    ) -> Result<(), AudioError>
        ensures { record { held = self.new; gave = result } ≡ faded self.old bytes.now effect_id duration_ms adsr }
    {
        match self {
            OpenBox::Engine(e) => e.crossfade_to(bytes, effect_id, duration_ms, adsr),
            OpenBox::Sounder(s) => s.crossfade_to(bytes, effect_id, duration_ms, adsr),
        }
    }

    #[tactic(auto, unfolding(crate::specs::Boxes::played))]
    pub fn play_with_priority(
        &mut self,
        bytes: &[u8],
        effect_id: u16,
        adsr: AdsrSpec,
        priority: u8,
    ) -> Result<usize, AudioError>
        ensures { record { held = self.new; gave = result } ≡ played self.old bytes.now (request_of effect_id adsr priority) }
    {
        match self {
            OpenBox::Engine(e) => e.play_with_priority(bytes, effect_id, adsr, priority),
            OpenBox::Sounder(s) => s.play_with_priority(bytes, effect_id, adsr, priority),
        }
    }

    #[tactic(auto, unfolding(crate::specs::Boxes::played))]
    pub fn play(
        &mut self,
        bytes: &[u8],
        effect_id: u16,
        adsr: AdsrSpec,
    ) -> Result<usize, AudioError>
        ensures { record { held = self.new; gave = result } ≡ played self.old bytes.now (request_of effect_id adsr 128) }
    {
        match self {
            OpenBox::Engine(e) => e.play(bytes, effect_id, adsr),
            OpenBox::Sounder(s) => s.play(bytes, effect_id, adsr),
        }
    }
}
