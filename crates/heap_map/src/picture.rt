ghost use Rattle.std.specs.Prelude.{◌≡◌, ◌≤◌, ◌++◌, IfOk, OnOk, None, Some, option_map, string_bytes};
ghost use Rattle.heap_map.specs.Cells.{cells_after, cells_before};
ghost use Rattle.heap_map.specs.MapFigures.{AreFiguresOf};
ghost use Rattle.heap_map.specs.Bands.{bands_of, moves_text};
ghost use Rattle.heap_map.specs.Text.{after_text, picture_text};

use crate::areas::write_legend;
use crate::bands::{Bands, MAX_BANDS};
use crate::drawing::draw;
use crate::figures::MapFigures;
use crate::map::Map;
use crate::strips::write_strip;
use crate::style::{Shape, Style};
use heap_image::Image;
use std::alloc::{AllocError, Global};
use summary::Survey;

/// A heap as its image has it and, if requested, as its collection will leave it.
#[derive(Drop)]
pub struct Picture {
    pub figures: MapFigures,
    /// The heap as it is.
    pub before: Map,
    /// The heap as its collection will leave it, if requested.
    pub after: Option<Map>,
    /// Where the live words go, if requested.
    pub moves: Option<Bands>,
}

impl Picture {
    /// The heap as it is, in `cells` cells, or one per word if it has fewer words.
    pub fn of(
        alloc: Global,
        image: &Image,
        survey: &Survey,
        cells: u32,
    ) -> Result<Picture, AllocError>
        requires same { survey.now ≡ image.now }
        requires some { 1 ≤ cells }
        requires few { cells ≤ 100000 }
        ensures figures { IfOk result (λ picture. AreFiguresOf image.now picture.figures) }
        ensures before { IfOk result (λ picture. picture.before.cells.items ≡ cells_before image.now cells) }
        ensures after { IfOk result (λ picture. option_map (λ map. map.cells.items) picture.after ≡ None) }
        ensures moves { IfOk result (λ picture. option_map (λ moves. moves.bands.items) picture.moves ≡ None) }
    {
        Ok(Picture {
            figures: MapFigures::of(survey),
            before: Map::before(alloc, image, survey, cells)?,
            after: None,
            moves: None,
        })
    }

    /// The heap as it is and as its collection will leave it, each in `cells` cells, or one per word if it has fewer words.
    pub fn of_both(
        alloc: Global,
        image: &Image,
        survey: &Survey,
        cells: u32,
    ) -> Result<Picture, AllocError>
        requires same { survey.now ≡ image.now }
        requires some { 1 ≤ cells }
        requires few { cells ≤ 100000 }
        ensures figures { IfOk result (λ picture. AreFiguresOf image.now picture.figures) }
        ensures before { IfOk result (λ picture. picture.before.cells.items ≡ cells_before image.now cells) }
        ensures after { IfOk result (λ picture. option_map (λ map. map.cells.items) picture.after ≡ Some (cells_after image.now cells)) }
        ensures moves { IfOk result (λ picture. option_map (λ moves. moves.bands.items) picture.moves ≡ None) }
    {
        Ok(Picture {
            figures: MapFigures::of(survey),
            before: Map::before(alloc, image, survey, cells)?,
            after: Some(Map::after(alloc, image, survey, cells)?),
            moves: None,
        })
    }

    /// The same picture with the moves of its live words.
    pub fn with_moves(
        self,
        alloc: Global,
        image: &Image,
        survey: &Survey,
    ) -> Result<Picture, AllocError>
        requires { survey.now ≡ image.now }
        ensures figures { IfOk result (λ picture. picture.figures ≡ self.figures) }
        ensures before { IfOk result (λ picture. picture.before ≡ self.before) }
        ensures after { IfOk result (λ picture. picture.after ≡ self.after) }
        ensures moves { IfOk result (λ picture. option_map (λ moves. moves.bands.items) picture.moves ≡ Some (bands_of image.now 64)) }
    {
        let bands = Bands::of(alloc, image, survey, MAX_BANDS)?;
        let Picture {
            figures,
            before,
            after,
            moves: _,
        } = self;
        Ok(Picture {
            figures,
            before,
            after,
            moves: Some(bands),
        })
    }

    /// The picture as text: the figures, the rows of each map, the legend, and the moves. It ends with a line feed.
    pub fn text(&self, alloc: Global, style: Style, shape: Shape) -> Result<String, AllocError>
        ensures { IfOk result (λ text. string_bytes text
            ≡ picture_text style shape self.now.figures self.now.before.cells.items (option_map (λ map. map.cells.items) self.now.after)
            ++ moves_text (option_map (λ moves. moves.bands.items) self.now.moves)) }
    {
        let mut text = String::new(alloc);
        writeln!(text, "{}", self.figures)?;
        write_strip(
            &mut text,
            style,
            shape,
            "before",
            self.before.cells.as_slice(),
        )?;
        self.write_after(&mut text, style, shape)?;
        write_legend(&mut text, style.glyphs, self)?;
        self.write_moves(&mut text)?;
        Ok(text)
    }

    /// Writes the moves, if they are known.
    fn write_moves(&self, text: &mut String) -> Result<(), AllocError>
        ensures { OnOk result (string_bytes text.new ≡ string_bytes text.old
            ++ moves_text (option_map (λ moves. moves.bands.items) self.now.moves)) }
    {
        match &self.moves {
            Some(moves) => moves.write(text),
            None => Ok(()),
        }
    }

    /// Writes the strip of the heap after its collection, if there is one.
    fn write_after(&self, text: &mut String, style: Style, shape: Shape) -> Result<(), AllocError>
        ensures { OnOk result (string_bytes text.new ≡ string_bytes text.old
            ++ after_text style shape (option_map (λ map. map.cells.items) self.now.after)) }
    {
        match &self.after {
            Some(after) => write_strip(text, style, shape, "after ", after.cells.as_slice()),
            None => Ok(()),
        }
    }

    /// The picture as an SVG document, with the name of the heap's file.
    pub fn svg(&self, alloc: Global, shape: Shape, name: &str) -> Result<String, AllocError> {
        draw(alloc, self, shape, name)
    }
}
