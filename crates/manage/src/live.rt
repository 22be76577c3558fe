// The tokens that live on, and the proxy LUNs on them.
ghost use Rattle.std.specs.Prelude.{◌≡◌};
ghost use Rattle.lists.specs.Pages.{pages_of};
ghost use Rattle.manage.specs.EndState.{in_order, left_by, live_by};
ghost use Rattle.tables.specs.Endings.{ending_of};

use pages::{page, walks};
use paper::state::{ProxyLuns, Tokens};
use tables::tokens::EndKind;
use tables::{proxies, tokens};

// The two tables that pages 02h and 03h change.
#[derive(Clone, Copy)]
pub struct Live {
    pub tokens: Tokens,
    pub proxies: ProxyLuns,
}

impl Live {
    // Tokens end, and with them their proxy LUNs.
    // Stays: `effects::ended` of tables does this to a coordinator by value; called for each page it takes five times the instructions.
    fn end(&mut self, e: EndKind, page: &[u8])
        ensures { self.new ≡ left_by (ending_of e page.now) self.old }
    {
        let tokens = tokens::tokens_after(&self.tokens, e, page);
        self.proxies = proxies::proxies_after(&self.proxies, self.tokens.in_use(), e, page);
        self.tokens = tokens;
    }

    // "Page 02h revokes the tokens it lists, skipping any not live (H); page 03h revokes all."
    // Stays: pages by their codes, as the paper names them.
    #[tactic(auto, unfolding(crate::specs::EndState::live_by))]
    fn revoke_by(&mut self, page: &[u8])
        ensures { self.new ≡ live_by page.now self.old }
    {
        match page::page_code(page) {
            0x02 => self.end(EndKind::Listed, page),
            0x03 => self.end(EndKind::AllTokens, page),
            _ => {}
        }
    }

    // What is left after the pages, in their order.
    #[tactic(auto, unfolding(crate::specs::EndState::in_order))]
    pub fn revoke_by_pages(&mut self, pages: &[u8])
        ensures { self.new ≡ in_order live_by (pages_of pages.now) self.old }
    {
        for page in walks::pages_of(pages) {
            self.revoke_by(page);
        }
    }
}
