//! What stands before the marks: the legend, the rows, and the numbers of the steps.

ghost use Rattle.std.specs.Prelude.{◌≡◌, ◌++◌, ◌<◌, ◌^◌, OnOk, string_bytes};
ghost use Rattle.timelines.specs.Layout.{frame_in};
ghost use Rattle.timelines.specs.Picture as pictures;

use crate::layout::Sheet;
use evt_types::{Kind, QueueDraft};
use std::alloc::AllocError;

/// How wide the picture of so many steps is.
fn width_of(unit: u32, steps: usize) -> u128
    ensures { result ≡ pictures.width_of unit steps }
{
    let wide = 150 + u128::from(unit) * (steps as u128 + 1);
    if wide < 900 { 900 } else { wide }
}

#[tactic(auto, unfolding(crate::specs::Picture::opening))]
fn write_opening(steps: usize, width: u128, height: u64, out: &mut String) -> Result<(), AllocError>
    ensures { OnOk result (string_bytes out.new ≡ string_bytes out.old ++ pictures.opening steps width height) }
{
    out.push_str("<svg xmlns='http://www.w3.org/2000/svg' role='graphics-document' width='")?;
    write!(out, "{width}")?;
    write!(out, "' height='{height}")?;
    write!(out, "' viewBox='0 0 {width}")?;
    write!(out, " {height}")?;
    out.push_str(
        "' font-family='Helvetica, Arial, sans-serif' font-size='12'>\n<title>Timeline of ",
    )?;
    write!(out, "{steps}")?;
    out.push_str(" steps</title>\n")
}

#[tactic(auto, unfolding(crate::specs::Picture::shapes_style))]
fn write_shapes_style(out: &mut String) -> Result<(), AllocError>
    ensures { OnOk result (string_bytes out.new ≡ string_bytes out.old ++ pictures.shapes_style) }
{
    out.push_str(
        "<style>\ntext{fill:#1d2126}.a{fill:#5a626c;font-size:10px}.n{font-size:9px}.b{fill:#fff}.q{fill:#eef2f7}.l{fill:#f8f8f4}\n",
    )?;
    out.push_str(
        ".w{fill-opacity:.3;stroke-width:1.5}.p{stroke-width:2}.g{stroke:#d5d9df}.s{fill:#1d2126}\n",
    )?;
    out.push_str(
        ".t{fill:none;stroke:#1d2126;stroke-width:2}.e{stroke:#1d2126;stroke-width:2;stroke-dasharray:2 3}\n",
    )?;
    out.push_str(
        ".o{stroke:#7a828c}.k{fill:#fff;stroke:#a0005a;stroke-width:2}.d{stroke:#a0005a;stroke-width:2.5;stroke-dasharray:5 3}\n",
    )
}

#[tactic(auto, unfolding(crate::specs::Picture::colours_style))]
fn write_colours_style(out: &mut String) -> Result<(), AllocError>
    ensures { OnOk result (string_bytes out.new ≡ string_bytes out.old ++ pictures.colours_style) }
{
    out.push_str(
        ".f0{fill:#56b4e9;stroke:#56b4e9}.f1{fill:#e69f00;stroke:#e69f00}.f2{fill:#009e73;stroke:#009e73}.f3{fill:#cc79a7;stroke:#cc79a7}\n",
    )?;
    out.push_str(
        ".f4{fill:#f0e442;stroke:#b5a900}.f5{fill:#5c8fd6;stroke:#5c8fd6}.f6{fill:#e8743b;stroke:#e8743b}.f7{fill:#999;stroke:#999}.h.p{stroke:#000}\n</style>\n",
    )
}

#[tactic(auto, unfolding(crate::specs::Picture::swatch))]
fn write_swatch(colour: usize, x: u128, out: &mut String) -> Result<(), AllocError>
    requires { x < 2 ^ 100 }
    ensures { OnOk result (string_bytes out.new ≡ string_bytes out.old ++ pictures.swatch colour x) }
{
    let words = x + 20;
    out.push_str("<rect class='h f")?;
    write!(out, "{colour}")?;
    write!(out, "' x='{x}")?;
    out.push_str("' y='36' width='14' height='12' rx='2'/><text x='")?;
    write!(out, "{words}' y='46'>")
}

/// The colour of the flows beyond these.
fn write_others(count: usize, out: &mut String) -> Result<(), AllocError>
    ensures { OnOk result (string_bytes out.new ≡ string_bytes out.old ++ pictures.others_swatch count) }
{
    if count == 7 {
        write_swatch(7, 795, out)?;
        out.push_str("others</text>\n")?;
    }
    Ok(())
}

/// The flows that have a colour each; where there are seven, that of the others.
#[tactic(auto, unfolding(crate::specs::Picture::flows_text), using(crate::proofs::Texts::flat_map_more))]
fn write_flows(flows: &[u32], out: &mut String) -> Result<(), AllocError>
    ensures { OnOk result (string_bytes out.new ≡ string_bytes out.old ++ pictures.flows_text flows.now) }
{
    out.push_str("<text x='8' y='46'>Flows</text>\n")?;
    for colour in 0..flows.len() {
        let flow = flows[colour];
        write_swatch(colour, 130 + 95 * colour as u128, out)?;
        writeln!(out, "{flow}</text>")?;
    }
    write_others(flows.len(), out)
}

#[tactic(auto, unfolding(crate::specs::Picture::bars_legend))]
fn write_bars_legend(out: &mut String) -> Result<(), AllocError>
    ensures { OnOk result (string_bytes out.new ≡ string_bytes out.old ++ pictures.bars_legend) }
{
    out.push_str(
        "<text x='8' y='70'>Signs</text>\n<rect class='w f5' x='130' y='60' width='22' height='12' rx='2'/><text x='158' y='70'>waits</text>\n",
    )?;
    out.push_str(
        "<rect class='h f5' x='250' y='60' width='22' height='12' rx='2'/><text x='278' y='70'>with a lane</text>\n",
    )?;
    out.push_str(
        "<rect class='h p f5' x='370' y='60' width='22' height='12' rx='2'/><text x='398' y='70'>pins its flow</text>\n",
    )
}

#[tactic(auto, unfolding(crate::specs::Picture::answers_legend))]
fn write_answers_legend(out: &mut String) -> Result<(), AllocError>
    ensures { OnOk result (string_bytes out.new ≡ string_bytes out.old ++ pictures.answers_legend) }
{
    out.push_str("<path class='t' d='M132 84v12'/><text x='158' y='94'>released</text>\n")?;
    out.push_str("<path class='s' d='M250 84l7 6l-7 6z'/><text x='278' y='94'>forwarded</text>\n")?;
    out.push_str(
        "<path class='k' d='M375 84l4 6l-4 6l-4 -6z'/><text x='398' y='94'>kept, for order</text>\n",
    )?;
    out.push_str("<path class='o' d='M500 66h22'/><text x='528' y='70'>passed on as</text>\n")?;
    out.push_str("<path class='d' d='M500 90h22'/><text x='528' y='94'>kept meanwhile</text>\n")
}

#[tactic(auto, unfolding(crate::specs::Picture::others_legend))]
fn write_others_legend(out: &mut String) -> Result<(), AllocError>
    ensures { OnOk result (string_bytes out.new ≡ string_bytes out.old ++ pictures.others_legend) }
{
    out.push_str(
        "<path class='t' d='M644 62v8m-4 -4h8'/><text x='658' y='70'>added beside</text>\n",
    )?;
    out.push_str(
        "<path class='t' d='M640 86l8 8m0 -8l-8 8'/><text x='658' y='94'>turned away</text>\n",
    )?;
    out.push_str("<path class='t' d='M760 63l4 6l4 -6'/><text x='778' y='70'>bounced</text>\n")?;
    out.push_str("<path class='e' d='M764 82v16'/><text x='778' y='94'>shut</text>\n")
}

#[tactic(auto, unfolding(crate::specs::Picture::legend_text))]
fn write_legend(flows: &[u32], steps: usize, out: &mut String) -> Result<(), AllocError>
    ensures { OnOk result (string_bytes out.new ≡ string_bytes out.old ++ pictures.legend_text flows.now steps) }
{
    out.push_str(
        "<rect class='b' width='100%' height='100%'/>\n<text x='8' y='22' font-size='15'>Timeline of ",
    )?;
    write!(out, "{steps}")?;
    out.push_str(" steps</text>\n")?;
    write_flows(flows, out)?;
    write_bars_legend(out)?;
    write_answers_legend(out)?;
    write_others_legend(out)
}

fn write_kind(kind: Kind, out: &mut String) -> Result<(), AllocError>
    ensures { OnOk result (string_bytes out.new ≡ string_bytes out.old ++ pictures.kind_word kind) }
{
    match kind {
        Kind::Ordered => out.push_str("ordered"),
        Kind::Atomic => out.push_str("atomic"),
        Kind::Parallel => out.push_str("parallel"),
    }
}

/// The row of a queue or of a lane, as far as its height.
#[tactic(auto, unfolding(crate::specs::Picture::row_start))]
fn write_row_start(
    row: usize,
    queues: usize,
    top: u32,
    extra: u32,
    out: &mut String,
) -> Result<(), AllocError>
    ensures { OnOk result (string_bytes out.new ≡ string_bytes out.old ++ pictures.row_start row queues top extra) }
{
    if row < queues {
        out.push_str("<rect class='q' y='")?;
    } else {
        out.push_str("<rect class='l' y='")?;
    }
    let height = 32 + 16 * u64::from(extra);
    write!(out, "{top}' height='{height}")
}

#[tactic(auto, unfolding(crate::specs::Picture::row_name))]
fn write_row_name(queues: &[QueueDraft], row: usize, out: &mut String) -> Result<(), AllocError>
    ensures { OnOk result (string_bytes out.new ≡ string_bytes out.old ++ pictures.row_name queues.now row) }
{
    if row < queues.len() {
        write!(out, "queue {row}, ")?;
        write_kind(queues[row].kind, out)
    } else {
        let lane = row - queues.len();
        write!(out, "lane {lane}")
    }
}

impl Sheet {
    #[tactic(auto, unfolding(crate::specs::Picture::row_text))]
    fn write_row(
        &self,
        queues: &[QueueDraft],
        width: u128,
        row: usize,
        out: &mut String,
    ) -> Result<(), AllocError>
        ensures { OnOk result (string_bytes out.new ≡ string_bytes out.old ++ pictures.row_text queues.now (frame_in self.now) width row) }
    {
        let at = self.row_at(row);
        let (top, extra) = (at.top, at.extra);
        let base = at.below(24);
        write_row_start(row, queues.len(), top, extra, out)?;
        write!(out, "' width='{width}")?;
        write!(out, "'/><text x='8' y='{base}")?;
        out.push_str("'>")?;
        write_row_name(queues, row, out)?;
        out.push_str("</text>\n")
    }

    #[tactic(auto, unfolding(crate::specs::Picture::rows_text), using(crate::proofs::Texts::flat_map_more))]
    fn write_rows(
        &self,
        queues: &[QueueDraft],
        width: u128,
        out: &mut String,
    ) -> Result<(), AllocError>
        ensures { OnOk result (string_bytes out.new ≡ string_bytes out.old ++ pictures.rows_text queues.now (frame_in self.now) width) }
    {
        for row in 0..self.rows.len() {
            self.write_row(queues, width, row, out)?;
        }
        Ok(())
    }

    /// The number of a fifth step, and a line below it.
    #[tactic(auto, unfolding(crate::specs::Picture::line_at))]
    fn write_line_at(&self, line: usize, out: &mut String) -> Result<(), AllocError>
        requires { line < 2 ^ 61 }
        ensures { OnOk result (string_bytes out.new ≡ string_bytes out.old ++ pictures.line_at (frame_in self.now) line) }
    {
        let (step, bottom) = (5 * line, self.bottom);
        let x = self.x_at(step);
        out.push_str("<text class='a' x='")?;
        write!(out, "{x}")?;
        write!(out, "' y='126'>{step}")?;
        out.push_str("</text><path class='g' d='M")?;
        write!(out, "{x}")?;
        writeln!(out, " 130V{bottom}'/>")
    }

    /// The number of each fifth step, and a line below it.
    #[tactic(auto, unfolding(crate::specs::Picture::lines_text), using(crate::proofs::Texts::flat_map_more))]
    fn write_lines(&self, steps: usize, out: &mut String) -> Result<(), AllocError>
        requires { steps < 2 ^ 63 }
        ensures { OnOk result (string_bytes out.new ≡ string_bytes out.old ++ pictures.lines_text (frame_in self.now) steps) }
    {
        for line in 0..steps / 5 + 1 {
            self.write_line_at(line, out)?;
        }
        Ok(())
    }

    /// All that stands before the marks of so many steps.
    #[tactic(auto, unfolding(crate::specs::Picture::head_of))]
    pub(crate) fn write_head(
        &self,
        queues: &[QueueDraft],
        steps: usize,
        out: &mut String,
    ) -> Result<(), AllocError>
        requires { steps < 2 ^ 63 }
        ensures { OnOk result (string_bytes out.new ≡ string_bytes out.old ++ pictures.head_of queues.now (frame_in self.now) steps) }
    {
        let width = width_of(self.unit, steps);
        write_opening(steps, width, u64::from(self.bottom) + 10, out)?;
        write_shapes_style(out)?;
        write_colours_style(out)?;
        write_legend(&self.flows, steps, out)?;
        self.write_rows(queues, width, out)?;
        self.write_lines(steps, out)
    }
}
