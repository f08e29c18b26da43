// mtspr and mfspr.
ghost use Rattle.std.specs.Prelude.{◌≡◌, ◌<◌};
ghost use Rattle.base.specs.Answers.{completion_number};
ghost use Rattle.base.specs.Limits.{gprs};
ghost use Rattle.power_rules.specs.Common.{did};
ghost use Rattle.power_rules.specs.Special.{put_spr, mtspr, get_tfiar, get_spr, mfspr};

use crate::common;
use base::answer::Completion;
use thread::{Control, Thread};

// The numbers of the registers: an operand is one of them, or TEXASRU's 131, and `put_spr` and `get_spr` are defined of numbers.
const SRR0: u8 = 26;

const SRR1: u8 = 27;

const TFHAR: u8 = 128;

const TFIAR: u8 = 129;

const TEXASR: u8 = 130;

// Each SPR number names its register. TFHAR stays a multiple of 4, and TEXASRU is the upper half of TEXASR.
#[tactic(auto, unfolding(power_rules::specs::Special::put_spr, power_rules::specs::Special::put_failure))]
fn put_spr(k: &mut Control, spr: u8, v: u64)
    ensures { k.new ≡ put_spr k.old spr v }
{
    match spr {
        SRR0 => k.saved.srr0 = v,
        SRR1 => k.saved.srr1 = v,
        TFHAR => k.failure.tfhar = v - v % 4,
        TFIAR => k.failure.tfiar = v,
        TEXASR => k.failure.texasr = v,
        _ => {
            k.failure.texasr = v % 0x1_0000_0000 * 0x1_0000_0000 + k.failure.texasr % 0x1_0000_0000
        }
    }
}

// mtspr (SPR, RA)
#[tactic(auto, unfolding(power_rules::specs::Special::mtspr))]
pub fn mtspr(t: &mut Thread, spr: u8, ra: u8) -> Completion
    requires { ra < gprs }
    ensures { did (completion_number result) t.new ≡ mtspr t.old spr ra }
{
    put_spr(&mut t.control, spr, t.live.gpr[ra as usize]);
    common::passes(t)
}

// TFIAR is not for problem state where it was recorded in privileged state.
fn get_tfiar(k: &Control) -> u64
    ensures { result ≡ get_tfiar k.now }
{
    if k.msr.pr && k.failure.tfiar % 2 == 0 {
        0
    } else {
        k.failure.tfiar
    }
}

#[tactic(auto, unfolding(power_rules::specs::Special::get_spr))]
fn get_spr(k: &Control, spr: u8) -> u64
    ensures { result ≡ get_spr k.now spr }
{
    match spr {
        SRR0 => k.saved.srr0,
        SRR1 => k.saved.srr1,
        TFHAR => k.failure.tfhar,
        TFIAR => get_tfiar(k),
        TEXASR => k.failure.texasr,
        _ => k.failure.texasr / 0x1_0000_0000,
    }
}

// mfspr (RT, SPR)
#[tactic(auto, unfolding(power_rules::specs::Special::mfspr))]
pub fn mfspr(t: &mut Thread, rt: u8, spr: u8) -> Completion
    requires { rt < gprs }
    ensures { did (completion_number result) t.new ≡ mfspr t.old rt spr }
{
    t.live.gpr[rt as usize] = get_spr(&t.control, spr);
    common::passes(t)
}
